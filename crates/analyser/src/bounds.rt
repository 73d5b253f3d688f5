// What a capture bears.
ghost use Rattle.std.specs.Prelude.{◌≡◌};
ghost use Rattle.captures.specs.Tops.{top_count};
ghost use Rattle.captures.specs.Views.{captured};
ghost use Rattle.analyser.specs.Assurance.{bound};

use captures::capture::{Capture, TOP};

// The bound on charges, 127 × the plan's weight: below it in all, the data read by counts are the sender's.
pub fn bound_of(capture: &Capture) -> usize
    ensures { result ≡ bound top_count (captured capture.now).marks_row }
{
    usize::from(TOP) * capture.plan().weight()
}
