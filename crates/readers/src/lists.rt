// Reading a list of soft values of any kind through any pile of readers.
ghost use Rattle.std.specs.Prelude.{◌≡◌, ◌+◌, ◌*◌, ◌≤◌, true, not, ◌&&◌, fold, position, length, take, IfOk, None};
ghost use Rattle.polar.specs.Plans.{marks_of};
ghost use Rattle.polar.specs.Refusals.{Outcome};
ghost use Rattle.polar.specs.Bytes.{bits};
ghost use Rattle.readers.specs.Readings.{AllFit, total};
ghost use Rattle.readers.specs.Blocks.{first_unfit, list_due, pile_due, rows, ListRead, WorkingRowsFree, NearReadsTrue, ShortfallTold};

use crate::question::Question;
use crate::reader::Reader;
use polar::code::take_out;
use polar::plan::Plan;
use polar::refusal::Refusal;
use soft::kind::{Listed, Soft};

// The most places of one sort that readers may work in.
pub const MOST_PLACES: usize = 65_536;

// The place of the first value that does not fit.
pub fn first_misfit<K: Listed>(values: &[K]) -> Option<usize>
    ensures { result ≡ first_unfit K.Soft.kind values.now }
{
    if all_fit(values) {
        None
    } else {
        find_misfit(values)
    }
}

// Whether every value fits. All are tested, so that many are tested at a time.
fn all_fit<K: Listed>(values: &[K]) -> bool
    ensures { result ≡ fold (λ all v. all && K.Soft.kind.fitting v 0) true values.now }
{
    values.iter().fold(true, |all, v| all & v.fits())
}

fn find_misfit<K: Listed>(values: &[K]) -> Option<usize>
    ensures { result ≡ position (λ v. not (K.Soft.kind.fitting v 0)) values.now }
{
    values.iter().position(|v| !v.fits())
}

// Whether the values are a list for a block of the plan: as many as its symbols, each of which fits.
fn check_list<K: Listed>(plan: &Plan, values: &[K]) -> Result<(), Refusal>
    ensures { Outcome (list_due K.Soft.kind K.Listed.unfit (marks_of plan.now) values.now None) result (λ _. Unit {0}) (Unit {0}) }
{
    if values.len() != plan.length() {
        return Err(Refusal::ItemCount);
    }
    match first_misfit(values) {
        Some(place) => Err(K::unfit(place)),
        None => Ok(()),
    }
}

// Whether a pile takes the plan, and finds its working places in buffers of these lengths, with one of each sort
// for each symbol beside them.
pub fn check_pile<K: Soft, R: Reader<K>>(
    reader: &R,
    plan: &Plan,
    soft_len: usize,
    bits_len: usize,
) -> Result<(), Refusal>
    ensures { Outcome (pile_due (R.Reader.reading reader.now) (marks_of plan.now) soft_len bits_len None) result (λ _. Unit {0}) (Unit {0}) }
{
    if !reader.takes(plan.marks()) {
        return Err(Refusal::NotTaken);
    }
    let len = plan.length();
    let soft_need = reader.soft_places(len);
    let bits_need = reader.bit_places(len);
    if soft_need > MOST_PLACES || bits_need > MOST_PLACES {
        return Err(Refusal::WorkingRoom);
    }
    if soft_len < soft_need + len || bits_len < bits_need + len {
        return Err(Refusal::WorkingRoom);
    }
    Ok(())
}

// Reads a list of values through a pile: writes the data, a byte for each, into the front of `out` and answers how many they are.
// `soft` and `bits` are lent to work in. (One by one, since the refusals and the clauses speak of the length of each.)
pub fn read_list<K: Listed, R: Reader<K>>(
    reader: &R,
    plan: &Plan,
    values: &[K],
    soft: &mut [K],
    bits: &mut [bool],
    out: &mut [u8],
) -> Result<usize, Refusal>
    ensures value { ListRead K.Soft.kind K.Listed.unfit (R.Reader.reading reader.now) (marks_of plan.now) values.now (rows soft.old bits.old out.old) result (rows soft.new bits.new out.new) }
    ensures free { WorkingRowsFree (rows soft.old bits.old out.old) (rows soft.new bits.new out.new) }
    ensures near { IfOk result (λ k. NearReadsTrue K.Soft.kind (marks_of plan.now) values.now (take k out.new)) }
{
    check_list(plan, values)?;
    check_pile(reader, plan, soft.len(), bits.len())?;
    if out.len() < plan.active() {
        return Err(Refusal::Output);
    }
    let marks = plan.marks();
    let (word, work) = bits.split_at_mut(marks.len());
    let question = Question {
        marks,
        turns: 0,
        values,
    };
    reader.read(&question, soft, work, word);
    take_out(plan, word, out)
}

// How far a listed block falls short of a word of any N bits: the sum over its symbols.
pub fn shortfall<K: Listed>(plan: &Plan, values: &[K], word: &[u8]) -> Result<u32, Refusal>
    ensures { ShortfallTold K.Soft.kind K.Listed.unfit (marks_of plan.now) values.now word.now result }
{
    check_list(plan, values)?;
    plan.check_word(word)?;
    Ok(sum_shortfalls(values, word))
}

// The sum of the values' shortfalls from the bits. (A rule of the project: a loop over values and bits with their index.)
fn sum_shortfalls<K: Listed>(values: &[K], word: &[u8]) -> u32
    requires short { length values.now ≤ 4096 }
    requires same { length word.now ≡ length values.now }
    requires fits { AllFit K.Soft.kind 0 values.now }
    ensures { result ≡ total K.Soft.kind 0 values.now (bits word.now) }
{
    let mut sum = 0;
    for (i, v) in values.iter().enumerate() {
        sum += v.shortfall(word[i] == 1);
    }
    sum
}
