// The reader of leaves.
ghost use Rattle.readers.specs.LeafReading.{leaf_reading};
ghost use Rattle.readers.specs.LeafRules.{leaf_rules};

use crate::question::Question;
use crate::reader::Reader;
use soft::kind::Soft;

// Decides an active leaf and answers 0 for a frozen one. Works in no places.
#[derive(Clone, Copy)]
pub struct Leaf;

impl<K: Soft> Reader<K> for Leaf {
    ghost reading = { λ _. leaf_reading K.Soft.kind };

    // The leaf reader keeps the rules of a reader.
    ghost rules = { λ _. leaf_rules K.Soft.kind K.Soft.rules };

    fn takes(&self, marks: &[bool]) -> bool {
        marks.len() == 1
    }

    fn soft_places(&self, _len: usize) -> usize {
        0
    }

    fn bit_places(&self, _len: usize) -> usize {
        0
    }

    fn read(
        &self,
        question: &Question<'_, K>,
        _soft: &mut [K],
        _bits: &mut [bool],
        out: &mut [bool],
    ) {
        out[0] = question.marks[0] && question.values[0].decide();
    }
}
