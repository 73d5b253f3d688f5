// Editing one place of a capture.
ghost use Rattle.std.specs.Prelude.{◌≡◌, ◌≤◌, IfOk, None, unsigned_abs};
ghost use Rattle.polar.specs.Refusals.{Outcome, refused_unless};
ghost use Rattle.polar.specs.declared.refusal.Refusal.TheVariants.{Range};
ghost use Rattle.captures.specs.Tops.{top_count};
ghost use Rattle.captures.specs.Calls.{Edited, allowed, count_after, weakened};
ghost use Rattle.captures.specs.Promises.{Charged, KeepsSign};
ghost use Rattle.captures.specs.Views.{captured};

use crate::capture::{Capture, TOP};
use crate::edit::Edit;
use polar::refusal::Refusal;

impl Capture {
    // Changes the count at one place.
    pub fn edit(&mut self, place: usize, edit: Edit) -> Result<(), Refusal>
        ensures value { Edited top_count (captured self.old) place edit result (captured self.new) }
        ensures charged { Charged top_count (captured self.old) edit (captured self.new) }
        ensures sign { KeepsSign (captured self.old) edit (captured self.new) }
    {
        if place >= self.counts.len() {
            return Err(Refusal::Place);
        }
        let count = self.replacement(self.counts[place], edit)?;
        self.counts[place] = count;
        Ok(())
    }

    // The count that an edit leaves where `old` stood.
    fn replacement(&self, old: i16, edit: Edit) -> Result<i16, Refusal>
        requires { unsigned_abs old ≤ top_count }
        ensures value { Outcome (refused_unless (allowed top_count edit) Range None) result (λ v. v ≡ count_after top_count (captured self.now).scale_exponent edit old) (Unit {0}) }
        ensures within { IfOk result (λ v. unsigned_abs v ≤ top_count) }
    {
        match edit {
            Edit::Erase => Ok(0),
            Edit::Count(v) => if v.unsigned_abs() > TOP {
                Err(Refusal::Range)
            } else {
                Ok(v)
            },
            Edit::Level(x) => self.scale().count_of(x),
            Edit::Weaken(n) => if n < 1 || n > TOP {
                Err(Refusal::Range)
            } else {
                Ok(weaken(old, n))
            },
        }
    }
}

// The count moved towards 0, where it stops.
fn weaken(count: i16, by: u16) -> i16
    requires { by ≤ top_count }
    ensures { result ≡ weakened count by }
{
    let by = by as i16;
    count - count.clamp(-by, by)
}
