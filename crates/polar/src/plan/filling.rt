// Making a plan place, and filling it.
ghost use Rattle.std.specs.Prelude.{◌≡◌, ◌<◌, ◌≤◌, true, [], ◌∷◌, length, IfOk};
ghost use Rattle.polar.specs.Words.{trues};
ghost use Rattle.polar.specs.Plans.{marks_of, Filled, MarksSet};

use crate::bits::{are_bits, count_ones, put_bits};
use crate::plan::{MAX_LENGTH, Plan, check_length};
use crate::refusal::Refusal;
use std::alloc::{AllocError, Global};

impl Plan {
    // A place for plans. It holds the plan of length 1 with its leaf active until a filling replaces it.
    pub fn new(heap: Global) -> Result<Plan, AllocError>
        ensures { IfOk result (λ p. marks_of p ≡ true ∷ []) }
    {
        let mut marks = Vec::with_capacity(heap, MAX_LENGTH)?;
        marks.push_reserved(true);
        Ok(Plan { marks, active: 1 })
    }

    // Replaces the plan by one of `len` leaves, a byte of `marks` for each: 1 for an active leaf, 0 for a frozen one.
    pub fn fill(&mut self, len: usize, marks: &[u8]) -> Result<(), Refusal>
        ensures { Filled self.old len marks.now result self.new }
    {
        check_length(len)?;
        if marks.len() != len || !are_bits(marks) {
            return Err(Refusal::Marks);
        }
        // (A local row of the greatest length: no memory is taken, and the slice carries the length.)
        let mut room = [false; MAX_LENGTH];
        let word = &mut room[0..len];
        put_bits(marks, word);
        self.set_marks(word)
    }

    // The same with a mark for each leaf, `true` for an active one.
    pub fn set_marks(&mut self, marks: &[bool]) -> Result<(), Refusal>
        ensures { MarksSet self.old marks.now result self.new }
    {
        check_length(marks.len())?;
        let active = count_ones(marks);
        if active == 0 {
            return Err(Refusal::Marks);
        }
        self.replace(marks, active);
        Ok(())
    }

    // Replaces the plan by a copy of another. (`Clone` would take memory.)
    pub fn copy_from(&mut self, other: &Plan)
        ensures { marks_of self.new ≡ marks_of other.now }
    {
        self.replace(other.marks(), other.active());
    }

    // Puts these marks in the place of the old ones, within the reserved room.
    fn replace(&mut self, marks: &[bool], active: usize)
        requires short { length marks.now ≤ 4096 }
        requires counted { active ≡ trues marks.now }
        requires some { 0 < active }
        ensures { marks_of self.new ≡ marks.now }
    {
        self.marks.clear();
        self.marks.extend_from_slice(marks).unwrap();
        self.active = active;
    }
}
