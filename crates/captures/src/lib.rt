// Captures: coded blocks as an analyser keeps them, and the calls that make, change, export, import and question them.
#![tactic(auto)]

pub mod capture;
pub mod edit;
mod writing;
