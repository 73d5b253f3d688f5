// The split layer, which reads by halves what the reader below does not take.
ghost use Rattle.std.specs.Prelude.{◌≡◌, ◌+◌, ◌≤◌, length};
ghost use Rattle.polar.specs.Words.{merge};
ghost use Rattle.polar.specs.Codewords.{tree_of};
ghost use Rattle.readers.specs.Readings.{AllFit, capped};
ghost use Rattle.readers.specs.SplitReading.{split_reading, split_answer, split_places, left_values, right_values, joins};
ghost use Rattle.readers.specs.Halves.{Halving};
ghost use Rattle.readers.specs.SplitRules.{split_rules};

use crate::lists::MOST_PLACES;
use crate::question::Question;
use crate::reader::Reader;
use polar::labels::add_right;
use polar::tree::children;
use soft::kind::Soft;

// The most places that a reading may work in, and one more, at which sums stop.
pub const PLACES_STOP: usize = MOST_PLACES + 1;

// Takes every node. What the reader below does not take is read left first, then right.
#[derive(Clone, Copy)]
pub struct Split<R> {
    pub below: R,
}

impl<K: Soft, R: Reader<K>> Reader<K> for Split<R> {
    ghost reading = { λ s. split_reading K.Soft.kind (R.Reader.reading s.below) };

    // The split keeps the rules of a reader, since the reader below does.
    ghost rules = { λ split. split_rules K.Soft.kind K.Soft.rules _ (R.Reader.rules split.below) };

    fn takes(&self, _marks: &[bool]) -> bool {
        true
    }

    fn soft_places(&self, len: usize) -> usize {
        add_places(self.below.soft_places(len), split_places(len))
    }

    fn bit_places(&self, len: usize) -> usize {
        add_places(self.below.bit_places(len), split_places(len))
    }

    fn read(
        &self,
        question: &Question<'_, K>,
        soft: &mut [K],
        bits: &mut [bool],
        out: &mut [bool],
    ) {
        read_by_halves(&self.below, question, soft, bits, out);
    }
}

// The places that a layer tells over a reader that tells `below`: the sum, which stops.
pub fn add_places(below: usize, more: usize) -> usize
    ensures { result ≡ capped (below + more) }
{
    below.saturating_add(more).min(PLACES_STOP)
}

// The places of each sort that a split tells on top of the reader below.
fn split_places(len: usize) -> usize
    requires { len ≤ 4096 }
    ensures { result ≡ split_places len }
{
    4 * len + 64
}

// The split's answer. The values of one child at a time stand in the front of `soft`.
fn read_by_halves<K: Soft, R: Reader<K>>(
    below: &R,
    question: &Question<'_, K>,
    soft: &mut [K],
    bits: &mut [bool],
    out: &mut [bool],
)
    requires { Halving (R.Reader.reading below.now) question.now.marks.now (length soft.old) (length bits.old) (length out.old) }
    ensures { out.new ≡ split_answer K.Soft.kind (R.Reader.reading below.now) (tree_of question.now.marks.now) question.now.marks.now question.now.turns question.now.values.now }
{
    if below.takes(question.marks) {
        below.read(question, soft, bits, out);
        return;
    }
    let (half, right_len) = children(question.marks.len());
    let (left_marks, right_marks) = question.marks.split_at(half);
    let (work, rest) = soft.split_at_mut(half);
    compare_halves(question, half, work);
    let left = Question {
        marks: left_marks,
        turns: question.turns,
        values: work,
    };
    let (left_out, right_out) = out.split_at_mut(half);
    read_by_halves(below, &left, rest, bits, left_out);
    let right_work = &mut work[0..right_len];
    join_halves(question, half, left_out, right_work);
    let right = Question {
        marks: right_marks,
        turns: question.turns + 1,
        values: right_work,
    };
    read_by_halves(below, &right, rest, bits, right_out);
    add_right(out, half);
}

// The values of the left child of a node whose left half is `half` long.
fn compare_halves<K: Soft>(question: &Question<'_, K>, half: usize, out: &mut [K])
    requires halved { (half ≤ length question.now.values.now) × (length question.now.values.now ≤ half + half) }
    requires room { length out.old ≡ half }
    ensures { out.new ≡ left_values K.Soft.kind half question.now.values.now }
{
    let (left, right) = question.values.split_at(half);
    out.copy_from_slice(left);
    compare_onto(out, right, question.turns);
}

// Compares each of the first values with its partner. (By place: nothing is known of what an adapter of `iter_mut` wrote.)
fn compare_onto<K: Soft>(values: &mut [K], partners: &[K], turns: u32)
    requires few { turns ≤ 12 }
    requires paired { length partners.now ≤ length values.old }
    requires fits { (AllFit K.Soft.kind turns values.old) × (AllFit K.Soft.kind turns partners.now) }
    ensures { values.new ≡ merge K.Soft.kind.compared values.old partners.now }
{
    for (i, w) in partners.iter().enumerate() {
        values[i] = values[i].compare(*w, turns);
    }
}

// The values of the right child, under the answer of the left one.
fn join_halves<K: Soft>(question: &Question<'_, K>, half: usize, left_bits: &[bool], out: &mut [K])
    requires two { 2 ≤ length question.now.marks.now }
    requires halved { (half ≤ length question.now.values.now) × (length question.now.values.now ≤ half + half) }
    requires left { length left_bits.now ≡ half }
    requires room { length out.old + half ≡ length question.now.values.now }
    ensures { out.new ≡ right_values K.Soft.kind half question.now.values.now left_bits.now }
{
    let (left, right) = question.values.split_at(half);
    join_into(out, left, right, left_bits, question.turns);
}

// Joins each of the right values with its left partner, under the left bit. (By place: a chain over three rows, whose closure
// asks that both values fit, is no plainer.)
fn join_into<K: Soft>(out: &mut [K], left: &[K], right: &[K], left_bits: &[bool], turns: u32)
    requires few { turns ≤ 11 }
    requires room { length out.old ≡ length right.now }
    requires paired { (length right.now ≤ length left.now) × (length right.now ≤ length left_bits.now) }
    requires fits { (AllFit K.Soft.kind turns left.now) × (AllFit K.Soft.kind turns right.now) }
    ensures { out.new ≡ joins K.Soft.kind.joined left.now right.now left_bits.now }
{
    for (i, w) in right.iter().enumerate() {
        out[i] = left[i].join(*w, left_bits[i], turns);
    }
}
