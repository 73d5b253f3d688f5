// A capture: a plan, a count for each symbol, and the exponent of its scale.
ghost use Rattle.std.specs.Prelude.{◌≡◌, ◌≤◌, vec_len, vec_capacity};
ghost use Rattle.levels.specs.Level.{top_exponent};
ghost use Rattle.captures.specs.Tops.{top_count, WithinTop};

use polar::plan::Plan;

pub mod access;
pub mod converting;
pub mod editing;
pub mod making;
pub mod questions;
pub mod storing;

// The largest count.
pub const TOP: u16 = storage::TOP;

// A coded block as an analyser keeps it. A count is a whole number from -127 to 127, sure of bit 0 far above zero and of bit 1 far below.
// Room for the longest block is reserved once, so that no later call needs memory. (Two rows, as the plan is lent out alone; no `impl Model`:
// contracts see a capture by `captured`, which the theorems of crates above cite.)
#[derive(Drop)]
pub struct Capture {
    plan: Plan,
    counts: Vec<i16>,
    exponent: u8,
    ghost room: { 4096 ≤ vec_capacity counts },
    ghost same: { vec_len counts ≡ vec_len plan.marks },
    ghost within: { WithinTop top_count counts.items },
    ghost small: { exponent ≤ top_exponent },
}
