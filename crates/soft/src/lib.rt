// Soft kinds: sorts of value that tell what a received symbol said of its bit.
//
// At r turns, r from 0 to 12, a value falls short of each bit by some whole number. A kind has a unit U, from 1 to 2047, and its limit
// at r turns is U * 2^r: a value that falls short of a bit by less than the limit decides that bit.
#![tactic(auto)]

pub mod count;
pub mod erasure;
pub mod kind;
