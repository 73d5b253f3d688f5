// What the bench program prints: the report of a stored capture, or of the refusal that it met.
#![tactic(auto)]

pub mod bench;
pub mod page;
mod text;
