// Which leaves of a block's tree carry data.
ghost use Rattle.std.specs.Prelude.{◌≡◌, ◌<◌, ◌≤◌, None, IfOk, vec_len, vec_capacity};
ghost use Rattle.polar.specs.Words.{trues};
ghost use Rattle.polar.specs.Refusals.{Outcome, length_due};

use crate::refusal::Refusal;

pub mod filling;
pub mod questions;

// The longest block.
pub const MAX_LENGTH: usize = 4096;

// Refuses a length that no block has.
pub fn check_length(len: usize) -> Result<(), Refusal>
    ensures due { Outcome (length_due len None) result (λ _. Unit {0}) (Unit {0}) }
    ensures within { IfOk result (λ _. (1 ≤ len) × (len ≤ 4096)) }
{
    if len == 0 || len > MAX_LENGTH {
        return Err(Refusal::Length);
    }
    Ok(())
}

// A plan is one mark for each leaf of a block of 1 to 4096 symbols, `true` for an active leaf and `false` for a frozen one,
// at least one of them active. Room for the longest plan is reserved once, so that no later call needs memory.
// (No `impl Model`: contracts see a plan's marks by `marks_of`, which contracts and theorems of crates above cite.)
#[derive(Drop)]
pub struct Plan {
    marks: Vec<bool>,
    active: usize,
    ghost room: { 4096 ≤ vec_capacity marks },
    ghost short: { vec_len marks ≤ 4096 },
    ghost counted: { active ≡ trues marks.items },
    ghost some: { 0 < active },
}
