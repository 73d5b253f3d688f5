// What a plan answers.
ghost use Rattle.std.specs.Prelude.{◌≡◌, length, None, IfOk};
ghost use Rattle.polar.specs.Words.{trues};
ghost use Rattle.polar.specs.Marks.{weight};
ghost use Rattle.polar.specs.Codewords.{tree_of};
ghost use Rattle.polar.specs.Distances.{LeafWeights, LeastWeight, MinimumDistance};
ghost use Rattle.polar.specs.Refusals.{Outcome};
ghost use Rattle.polar.specs.Plans.{marks_of, word_due};

use crate::bits::are_bits;
use crate::plan::Plan;
use crate::refusal::Refusal;
use crate::weight::least_weight;

impl Plan {
    // The number of symbols N of the plan's blocks.
    pub fn length(&self) -> usize
        ensures { result ≡ length (marks_of self.now) }
    {
        self.marks.len()
    }

    // The number of active leaves K.
    pub fn active(&self) -> usize
        ensures { result ≡ trues (marks_of self.now) }
    {
        self.active
    }

    // A mark for each leaf, left to right.
    pub fn marks(&self) -> &[bool]
        ensures { result.now ≡ marks_of self.now }
    {
        self.marks.as_slice()
    }

    // Whether a word is one of the plan's blocks, a byte for each bit: the number of bits comes first, then the bits.
    pub fn check_word(&self, word: &[u8]) -> Result<(), Refusal>
        ensures due { Outcome (word_due (marks_of self.now) word.now None) result (λ _. Unit {0}) (Unit {0}) }
        ensures same_len { IfOk result (λ _. length word.now ≡ length (marks_of self.now)) }
    {
        if word.len() != self.length() {
            return Err(Refusal::ItemCount);
        }
        if !are_bits(word) {
            return Err(Refusal::Data);
        }
        Ok(())
    }

    // The plan's weight d: the smallest weight of an active leaf, 2 to the number of its turns.
    // It is the minimum distance of the plan's codewords.
    pub fn weight(&self) -> usize
        ensures value { result ≡ weight (tree_of (marks_of self.now)) (marks_of self.now) }
        ensures least { LeastWeight (tree_of (marks_of self.now)) (marks_of self.now) result }
        ensures distance { MinimumDistance (tree_of (marks_of self.now)) (marks_of self.now) result }
        ensures leaves { LeafWeights (tree_of (marks_of self.now)) }
    {
        least_weight(self.marks.as_slice()).unwrap()
    }
}
