// Readers that weigh scores: the exhaustive reader of nodes with few active leaves, and the shortcut layer over any reader.
#![tactic(auto)]

pub mod exhaustive;
mod pattern;
pub mod shortcut;
mod writing;
