// What a capture holds.
ghost use Rattle.std.specs.Prelude.{◌≡◌, ◌≤◌, length};
ghost use Rattle.levels.specs.Level.{exponent_of};
ghost use Rattle.polar.specs.Plans.{marks_of};
ghost use Rattle.captures.specs.Calls.{charge};
ghost use Rattle.captures.specs.Tops.{top_count};
ghost use Rattle.captures.specs.Views.{captured};

use crate::capture::{Capture, TOP};
use crate::edit::Edit;
use levels::scale::Scale;
use polar::plan::Plan;

impl Capture {
    // The plan of the block.
    pub fn plan(&self) -> &Plan
        ensures { marks_of result.now ≡ (captured self.now).marks_row }
    {
        &self.plan
    }

    // A count for each symbol.
    pub fn counts(&self) -> &[i16]
        ensures { result.now ≡ (captured self.now).count_row }
    {
        self.counts.as_slice()
    }

    // The exponent k of the scale, 0 to 6.
    pub fn exponent(&self) -> u8
        ensures { result ≡ (captured self.now).scale_exponent }
    {
        self.exponent
    }

    // The scale between the counts and their levels.
    pub fn scale(&self) -> Scale
        ensures { exponent_of result.step ≡ (captured self.now).scale_exponent }
    {
        Scale::new(self.exponent).unwrap()
    }

    // What an accepted edit of this capture is charged.
    pub fn charge(&self, edit: Edit) -> u32
        ensures { result ≡ charge top_count edit }
    {
        match edit {
            Edit::Erase => u32::from(TOP),
            Edit::Count(_) | Edit::Level(_) => 2 * u32::from(TOP),
            Edit::Weaken(n) => u32::from(n),
        }
    }
}
