// Counts of a capture, and the levels that they stand for.
#![tactic(auto)]

pub mod scale;
