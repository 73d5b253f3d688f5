// The bench program's work: a stored capture in, its report out.
ghost use Rattle.std.specs.Prelude.{◌≤◌, vec_len};

use crate::page::Page;
use captures::capture::Capture;
use soft::count::Count;

pub mod running;

// The places that the bench program's readers work in at the longest block, with one of each sort for each symbol.
pub const SOFT_PLACES: usize = 20_544;

pub const BIT_PLACES: usize = 32_832;

// A bench: the capture that was loaded last, the report of what was asked last, and all the memory that a run needs.
#[derive(Drop)]
pub struct Bench {
    capture: Capture,
    page: Page,
    soft: Vec<Count>,
    bits: Vec<bool>,
    ghost soft_room: { 20544 ≤ vec_len soft },
    ghost bit_room: { 32832 ≤ vec_len bits },
}
