// Codewords: encoding data by a plan, and taking data out of a block's bits.
ghost use Rattle.std.specs.Prelude.{◌≡◌, ◌≤◌, Bool, List, ◌++◌, length, take, drop, IfOk};
ghost use Rattle.polar.specs.Words.{trues};
ghost use Rattle.polar.specs.Bytes.{bits, bytes};
ghost use Rattle.polar.specs.Marks.{spread, collect};
ghost use Rattle.polar.specs.Codewords.{codeword, Encodes};
ghost use Rattle.polar.specs.Plans.{marks_of, Encoded, Extracted, TakenOut};

use crate::bits::{are_bits, put_bits, write_bytes};
use crate::labels::{transform, untransform};
use crate::plan::{MAX_LENGTH, Plan};
use crate::refusal::Refusal;

// Writes the labels of the leaves: the data at the active ones in order, 0 at the frozen ones. (By place: of a chain whose closure takes data as it
// goes the proof knows nothing.)
fn put_leaf_labels(marks: &[bool], data: &[u8], labels: &mut [bool])
    requires { length labels.old ≡ length marks.now }
    ensures { labels.new ≡ spread marks.now (bits «data».now) }
{
    let mut rest = data.iter();
    for (i, mark) in marks.iter().enumerate() {
        labels[i] = *mark && rest.next().is_some_and(|b| *b == 1);
    }
}

// Writes the codeword of the data.
fn put_codeword(marks: &[bool], data: &[u8], word: &mut [bool])
    requires { length word.old ≡ length marks.now }
    ensures { word.new ≡ codeword marks.now (bits «data».now) }
{
    put_leaf_labels(marks, data, word);
    transform(word);
}

// Writes the codeword of `data`, a byte for each bit, into the front of `out`, and answers its length.
pub fn encode(plan: &Plan, data: &[u8], out: &mut [u8]) -> Result<usize, Refusal>
    ensures value { Encoded (marks_of plan.now) «data».now out.old result out.new }
    ensures encodes { IfOk result (λ n. Encodes (marks_of plan.now) (bits «data».now) (bits (take n out.new))) }
{
    let marks = plan.marks();
    if data.len() != plan.active() || !are_bits(data) {
        return Err(Refusal::Data);
    }
    if out.len() < marks.len() {
        return Err(Refusal::Output);
    }
    // (A local row, which takes no memory; the slice carries the length.)
    let mut room = [false; MAX_LENGTH];
    let word = &mut room[0..marks.len()];
    put_codeword(marks, data, word);
    write_bytes(word, out);
    Ok(marks.len())
}

// Writes the labels of the active leaves, a byte for each, into the front of `out`.
fn write_active(marks: &[bool], labels: &[bool], out: &mut [u8])
    requires same_len { length labels.now ≡ length marks.now }
    requires room { trues marks.now ≤ length out.old }
    ensures { out.new ≡ bytes (collect marks.now labels.now) ++ drop (trues marks.now) out.old }
{
    // (Counted by hand: where `write_front` takes a filtered chain, `extract` of 4096 symbols takes a fifth more time.)
    let mut next = 0;
    for (i, mark) in marks.iter().enumerate() {
        if *mark {
            out[next] = u8::from(labels[i]);
            next += 1;
        }
    }
}

// Takes the data out of a block's bits in place: the bits become the labels of their leaves, and those of the active leaves
// are written into the front of `out`, a byte for each. Answers how many they are.
pub fn take_out(plan: &Plan, word: &mut [bool], out: &mut [u8]) -> Result<usize, Refusal>
    ensures { TakenOut (marks_of plan.now) word.old out.old result word.new out.new }
{
    let marks = plan.marks();
    if word.len() != marks.len() {
        return Err(Refusal::ItemCount);
    }
    let active = plan.active();
    if out.len() < active {
        return Err(Refusal::Output);
    }
    untransform(word);
    write_active(marks, word, out);
    Ok(active)
}

// Writes the data of a block's bits, a byte for each, into the front of `out`, and answers how many they are.
// The data of a codeword are those that it was made of.
pub fn extract(plan: &Plan, word: &[u8], out: &mut [u8]) -> Result<usize, Refusal>
    ensures value { Extracted (marks_of plan.now) word.now out.old result out.new }
    ensures returns { IfOk result (λ n. (ds : List Bool) → length ds ≡ trues (marks_of plan.now) → bits word.now ≡ codeword (marks_of plan.now) ds → take n out.new ≡ bytes ds) }
{
    plan.check_word(word)?;
    // (`take_out` looks at the room too, but after the row is made.)
    if out.len() < plan.active() {
        return Err(Refusal::Output);
    }
    // (A local row, which takes no memory; the slice carries the length.)
    let mut room = [false; MAX_LENGTH];
    let labels = &mut room[0..word.len()];
    put_bits(word, labels);
    take_out(plan, labels, out)
}
