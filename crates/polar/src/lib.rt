// Balanced-tree polar codes: the coding tree and a walk over its nodes, labels, plans of active leaves, and codewords.
#![tactic(auto)]

pub mod bits;
pub mod code;
pub mod frame;
pub mod labels;
pub mod plan;
pub mod refusal;
pub mod rows;
pub mod tree;
pub mod walk;
mod weight;
