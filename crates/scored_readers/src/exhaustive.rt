// The exhaustive reader, which weighs every label of a node with few active leaves.
ghost use Rattle.std.specs.Prelude.{◌≡◌, ◌+◌, ◌*◌, ◌<◌, ◌≤◌, ◌++◌, length};
ghost use Rattle.polar.specs.Refusals.{Outcome};
ghost use Rattle.polar.specs.Words.{trues};
ghost use Rattle.polar.specs.Marks.{spread};
ghost use Rattle.readers.specs.Readings.{Posed};
ghost use Rattle.scored_readers.specs.ExhaustiveReading.{digits, data_word, word_score, exhaustive_answer, exhaustive_reading, threshold_due};
ghost use Rattle.scored_readers.specs.ExhaustiveRules.{exhaustive_rules};

use polar::bits::count_ones;
use polar::labels::{add_right, transform};
use polar::refusal::Refusal;
use readers::question::Question;
use readers::reader::Reader;
use soft::kind::Scored;

// Takes nodes with at most `threshold` active leaves.
#[derive(Clone, Copy)]
pub struct Exhaustive {
    threshold: usize,
    ghost some: { 1 ≤ threshold },
    ghost few: { threshold ≤ 8 },
}

impl Exhaustive {
    // Refused unless the threshold is 1 to 8.
    pub fn new(threshold: usize) -> Result<Exhaustive, Refusal>
        ensures { Outcome (threshold_due threshold) result (λ e. e.threshold ≡ threshold) (Unit {0}) }
    {
        if (1..=8).contains(&threshold) {
            Ok(Exhaustive { threshold })
        } else {
            Err(Refusal::Range)
        }
    }
}

impl<K: Scored> Reader<K> for Exhaustive {
    ghost reading = { λ s. exhaustive_reading K.Scored.scoring s.threshold };

    // The exhaustive reader keeps the rules of a reader, since scores are fair.
    ghost rules = { λ reader. exhaustive_rules K.Soft.kind K.Scored.scoring K.Scored.fair reader.threshold reader.some };

    fn takes(&self, marks: &[bool]) -> bool {
        count_ones(marks) <= self.threshold
    }

    fn soft_places(&self, _len: usize) -> usize {
        0
    }

    fn bit_places(&self, len: usize) -> usize {
        len * 2
    }

    fn read(
        &self,
        question: &Question<'_, K>,
        _soft: &mut [K],
        bits: &mut [bool],
        out: &mut [bool],
    ) {
        let (rows, _) = bits.split_at_mut(2 * question.marks.len());
        try_words(question, rows, out);
    }
}

// The label of largest score; of those, the one of the smallest data number.
fn try_words<K: Scored>(question: &Question<'_, K>, rows: &mut [bool], out: &mut [bool])
    requires few { trues question.now.marks.now ≤ 8 }
    requires room { (length rows.old ≡ 2 * length question.now.marks.now) × (length out.old ≡ length question.now.marks.now) }
    ensures { out.new ≡ exhaustive_answer K.Scored.scoring question.now.marks.now question.now.turns question.now.values.now }
{
    let marks = question.marks;
    let last = (1u32 << count_ones(marks)) - 1;
    put_first_words(marks, rows);
    out.copy_from_slice(&rows[0..marks.len()]);
    let mut top = score_word(question, out);
    for number in 0..last {
        put_next_word(marks, number, rows);
        let word = &rows[0..marks.len()];
        let score = score_word(question, word);
        if top < score {
            top = score;
            out.copy_from_slice(word);
        }
    }
}

// Writes the labels of data numbers 0 and 1 behind each other.
fn put_first_words(marks: &[bool], rows: &mut [bool])
    requires { (1 ≤ length marks.now) × (length rows.old ≡ 2 * length marks.now) }
    ensures { rows.new ≡ data_word marks.now 0 ++ data_word marks.now 1 }
{
    let (front, behind) = rows.split_at_mut(marks.len());
    front.fill(false);
    put_word(marks, 1, behind);
}

// Replaces the label in front by the next one: an odd number's differs from the last one by the label of number 1, which stands behind.
fn put_next_word(marks: &[bool], number: u32, rows: &mut [bool])
    requires some { 1 ≤ length marks.now }
    requires more { number < 255 }
    requires last { rows.old ≡ data_word marks.now number ++ data_word marks.now 1 }
    ensures { rows.new ≡ data_word marks.now (number + 1) ++ data_word marks.now 1 }
{
    if number % 2 == 0 {
        add_right(rows, marks.len());
    } else {
        let (front, _) = rows.split_at_mut(marks.len());
        put_word(marks, number + 1, front);
    }
}

// Writes the label of a data number.
fn put_word(marks: &[bool], number: u32, word: &mut [bool])
    requires { length word.old ≡ length marks.now }
    ensures { word.new ≡ data_word marks.now number }
{
    put_leaves(marks, number, word);
    transform(word);
}

// Writes a number's digits at the active leaves, the lowest at the last, and 0 at the frozen ones.
// (A loop: the digits are written from the last leaf on, with the rest of the number carried along; a chain is no plainer.)
fn put_leaves(marks: &[bool], number: u32, labels: &mut [bool])
    requires { length labels.old ≡ length marks.now }
    ensures { labels.new ≡ spread marks.now (digits (trues marks.now) number) }
{
    let mut rest = number;
    for i in (0..marks.len()).rev() {
        let mut bit = false;
        if marks[i] {
            bit = rest % 2 == 1;
            rest /= 2;
        }
        labels[i] = bit;
    }
}

// The score of the node's values for the bits of a word of its length.
pub(crate) fn score_word<K: Scored>(question: &Question<'_, K>, word: &[bool]) -> i32
    requires { length word.now ≡ length question.now.marks.now }
    ensures { result ≡ word_score K.Scored.scoring question.now.turns question.now.values.now word.now }
{
    question
        .values
        .iter()
        .zip(word)
        .map(|(v, b)| v.score(*b, question.turns))
        .sum()
}
