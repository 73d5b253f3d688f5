// The bound on charges cannot be raised: two data words, and erasures charged the bound in all that leave their captures equal.
ghost use Rattle.std.specs.Prelude.{◌≡◌, ◌<◌, ◌≤◌, true, false, ◌&&◌, ◌++◌, length, take, drop, IfOk, ◌==◌, slice_index, slice_index_or};
ghost use Rattle.polar.specs.Shape.{balanced, turns};
ghost use Rattle.polar.specs.Words.{trues};
ghost use Rattle.polar.specs.Bytes.{all_bits, bits, bytes};
ghost use Rattle.polar.specs.Codewords.{tree_of, codeword};
ghost use Rattle.polar.specs.Distances.{LeastWeight};
ghost use Rattle.polar.specs.Plans.{marks_of};
ghost use Rattle.captures.specs.Tops.{top_count};
ghost use Rattle.analyser.specs.Assurance.{LimitIsTight};
ghost use Rattle.analyser.specs.Worst.{plan_weight, leaf_weight, FirstLightest, leaf_word, places_of, WorstPair};

use crate::writing::write_front;
use polar::bits::count_ones;
use polar::code::encode;
use polar::plan::{MAX_LENGTH, Plan};
use polar::refusal::Refusal;
use polar::tree::children;

// The right branches on the way to a leaf of a block of `len` symbols.
fn turns_of(len: usize, place: usize) -> usize
    requires { place < len }
    ensures value { result ≡ slice_index (turns (balanced len)) place }
    ensures few { result < len }
{
    if len < 2 {
        return 0;
    }
    let (left, right) = children(len);
    if place < left {
        turns_of(left, place)
    } else {
        1 + turns_of(right, place - left)
    }
}

// Whether a leaf is active and has this weight, 2 to the right branches on the way to it.
fn weighs(marks: &[bool], leaf: usize, weight: usize) -> bool
    requires within { leaf < length marks.now }
    requires short { length marks.now ≤ 4096 }
    ensures { result ≡ (slice_index_or marks.now leaf false && leaf_weight marks.now leaf == weight) }
{
    marks[leaf] && 1 << turns_of(marks.len(), leaf) == weight
}

// The first active leaf that weighs as much as the plan.
fn first_lightest(marks: &[bool], weight: usize) -> usize
    requires short { length marks.now ≤ 4096 }
    requires value { weight ≡ plan_weight marks.now }
    requires least { LeastWeight (tree_of marks.now) marks.now weight }
    ensures { FirstLightest marks.now result }
{
    (0..marks.len())
        .find(|leaf| weighs(marks, *leaf, weight))
        .unwrap()
}

// Writes the data word that has 1 at the datum of an active leaf alone.
fn put_leaf_word(marks: &[bool], leaf: usize, word: &mut [u8])
    requires within { leaf < length marks.now }
    requires active { slice_index_or marks.now leaf false ≡ true }
    requires all_data { length word.old ≡ trues marks.now }
    ensures { word.new ≡ bytes (leaf_word marks.now leaf) }
{
    word.fill(0);
    word[count_ones(&marks[0..leaf])] = 1;
}

// Writes the places where a word has 1, ascending, into the front of `places`.
fn write_places(word: &[u8], places: &mut [usize])
    requires { trues (bits word.now) ≤ length places.old }
    ensures { places.new ≡ places_of (bits word.now) ++ drop (trues (bits word.now)) places.old }
{
    let ones = word.iter().enumerate().filter(|(_, bit)| **bit == 1);
    write_front(places, ones.map(|(i, _)| i));
}

// The same of the codeword of `data`.
fn write_codeword_places(plan: &Plan, data: &[u8], places: &mut [usize])
    requires all_data { length «data».now ≡ trues (marks_of plan.now) }
    requires all_bits { all_bits «data».now ≡ true }
    requires room { trues (codeword (marks_of plan.now) (bits «data».now)) ≤ length places.old }
    ensures { let word = codeword (marks_of plan.now) (bits «data».now) in places.new ≡ places_of word ++ drop (trues word) places.old }
{
    // (A local row, which takes no memory.)
    let mut word = [0u8; MAX_LENGTH];
    encode(plan, data, &mut word).unwrap();
    write_places(&word[0..plan.length()], places);
}

// Two data words of a plan, and the places whose erasures leave their captures equal: into the front of `one` the zero word, into that
// of `other` the word with 1 at the datum of the first lightest leaf alone, and into that of `places` those where its codeword has 1.
// Answers their number, which is the plan's weight.
pub fn worst_pair(
    plan: &Plan,
    one: &mut [u8],
    other: &mut [u8],
    places: &mut [usize],
) -> Result<usize, Refusal>
    ensures value { WorstPair (marks_of plan.now) one.old other.old places.old result one.new other.new places.new }
    ensures tight { IfOk result (λ n. LimitIsTight top_count (marks_of plan.now) (bits (take (trues (marks_of plan.now)) one.new)) (bits (take (trues (marks_of plan.now)) other.new)) (take n places.new)) }
{
    let active = plan.active();
    let weight = plan.weight();
    if one.len() < active || other.len() < active || places.len() < weight {
        return Err(Refusal::Output);
    }
    let marks = plan.marks();
    let leaf = first_lightest(marks, weight);
    let zeros = &mut one[0..active];
    zeros.fill(0);
    let word = &mut other[0..active];
    put_leaf_word(marks, leaf, word);
    write_codeword_places(plan, word, places);
    Ok(weight)
}
