// The byte form of a block's marks, counts and exponent: storing to bytes and loading from bytes.
#![tactic(auto)]

mod cursor;
mod form;
pub mod loading;
pub mod storing;

// The first field of the form.
const VERSION: u32 = 1;

// The largest size of a count.
// (Its own here, as in `soft` and `levels`: these crates do not know one another.)
pub const TOP: u16 = 127;

// The largest exponent.
pub const MAX_EXPONENT: u8 = 6;
