// Making a capture place, and a capture of data.
ghost use Rattle.std.specs.Prelude.{◌≡◌, ◌<◌, ◌≤◌, true, false, [], ◌∷◌, map, length, IfOk};
ghost use Rattle.polar.specs.Words.{trues};
ghost use Rattle.polar.specs.Bytes.{bits};
ghost use Rattle.polar.specs.Plans.{marks_of};
ghost use Rattle.levels.specs.Level.{top_exponent};
ghost use Rattle.captures.specs.Tops.{top_count, WithinTop};
ghost use Rattle.captures.specs.Captures.{capture_of, full, made_of};
ghost use Rattle.captures.specs.Calls.{Made};
ghost use Rattle.captures.specs.Views.{captured};

use crate::capture::{Capture, TOP};
use crate::writing::write_front;
use polar::code::encode;
use polar::plan::{MAX_LENGTH, Plan};
use polar::refusal::Refusal;
use std::alloc::{AllocError, Global};
use storage::MAX_EXPONENT;

impl Capture {
    // A place for captures. It holds the capture of datum 0 on the plan of length 1, with exponent 0, until a call replaces it.
    pub fn new(heap: Global) -> Result<Capture, AllocError>
        ensures { IfOk result (λ c. captured c ≡ made_of top_count (true ∷ []) (false ∷ []) 0) }
    {
        let plan = Plan::new(heap)?;
        let mut counts = Vec::with_capacity(heap, MAX_LENGTH)?;
        counts.push_reserved(full_count(false));
        Ok(Capture {
            plan,
            counts,
            exponent: 0,
        })
    }

    // Replaces the capture by one of `data` on a copy of the plan: 127 for each codeword bit 0 and -127 for each bit 1.
    pub fn make(&mut self, plan: &Plan, exponent: u8, data: &[u8]) -> Result<(), Refusal>
        ensures { Made top_count (captured self.old) (marks_of plan.now) exponent «data».now result (captured self.new) }
    {
        if exponent > MAX_EXPONENT {
            return Err(Refusal::Range);
        }
        // (Local rows, which take no memory; the slices carry the length.)
        let mut word = [0u8; MAX_LENGTH];
        encode(plan, data, &mut word)?;
        let mut room = [0i16; MAX_LENGTH];
        let counts = &mut room[0..plan.length()];
        put_full_counts(&word[0..plan.length()], counts);
        self.replace(plan.marks(), counts, exponent);
        Ok(())
    }

    // Puts these marks, counts and exponent in the place of the old ones, within the reserved room.
    pub(crate) fn replace(&mut self, marks: &[bool], counts: &[i16], exponent: u8)
        requires plan { (1 ≤ length marks.now) × ((length marks.now ≤ 4096) × (0 < trues marks.now)) }
        requires same { length counts.now ≡ length marks.now }
        requires within { WithinTop top_count counts.now }
        requires small { exponent ≤ top_exponent }
        ensures { captured self.new ≡ capture_of marks.now counts.now exponent }
    {
        self.counts.clear();
        self.counts.extend_from_slice(counts).unwrap();
        self.plan.set_marks(marks).unwrap();
        self.exponent = exponent;
    }
}

// Writes the counts that a codeword is made with.
fn put_full_counts(word: &[u8], counts: &mut [i16])
    requires { length counts.old ≡ length word.now }
    ensures { counts.new ≡ map (full top_count) (bits word.now) }
{
    let bits = word.iter().copied().map(|b| b == 1);
    write_front(counts, bits.map(full_count));
}

// The count of a codeword bit.
fn full_count(bit: bool) -> i16
    ensures { result ≡ full top_count bit }
{
    let top = TOP as i16;
    if bit { -top } else { top }
}
