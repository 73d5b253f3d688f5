// Readers of the coding tree's nodes: the reader of leaves, the split layer over any reader, and the reading of a list of soft values.
#![tactic(auto)]

pub mod leaf;
pub mod lists;
pub mod question;
pub mod reader;
pub mod split;
