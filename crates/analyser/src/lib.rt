// Reading captures through any pile of readers, and what is assured of what is read.
#![tactic(auto)]

pub mod bounds;
pub mod comparing;
pub mod reading;
pub mod values;
pub mod worst;
mod writing;
