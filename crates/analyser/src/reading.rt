// Reading a capture through a pile of readers.
ghost use Rattle.std.specs.Prelude.{◌≡◌, length, take, IfOk};
ghost use Rattle.soft.specs.Counts.{counted, count_kind, top_count};
ghost use Rattle.readers.specs.Blocks.{rows, WorkingRowsFree, NearReadsTrue};
ghost use Rattle.captures.specs.Views.{captured};
ghost use Rattle.analyser.specs.Reading.{values_of, CaptureRead};
ghost use Rattle.analyser.specs.Assurance.{LightHistoriesReadTrue};

use crate::values::{Spoken, put_values};
use captures::capture::Capture;
use polar::code::take_out;
use polar::refusal::Refusal;
use readers::lists::check_pile;
use readers::question::Question;
use readers::reader::Reader;
use soft::count::Count;

// Reads a capture as values of a kind: writes the data, a byte for each, into the front of `out` and answers how many they are.
// `soft` and `bits` are lent to work in: two rows, since the refusal `WorkingRoom` and the contract speak of the length of each.
pub fn read_capture<K: Spoken, R: Reader<K>>(
    reader: &R,
    capture: &Capture,
    soft: &mut [K],
    bits: &mut [bool],
    out: &mut [u8],
) -> Result<usize, Refusal>
    ensures value { CaptureRead (R.Reader.reading reader.now) (captured capture.now) (values_of K.Spoken.spoken (captured capture.now)) (rows soft.old bits.old out.old) result (rows soft.new bits.new out.new) }
    ensures free { WorkingRowsFree (rows soft.old bits.old out.old) (rows soft.new bits.new out.new) }
    ensures near { IfOk result (λ k. NearReadsTrue K.Soft.kind (captured capture.now).marks_row (values_of K.Spoken.spoken (captured capture.now)) (take k out.new)) }
{
    let plan = capture.plan();
    check_pile(reader, plan, soft.len(), bits.len())?;
    if out.len() < plan.active() {
        return Err(Refusal::Output);
    }
    let marks = plan.marks();
    let (values, places) = soft.split_at_mut(marks.len());
    put_values(capture.counts(), values);
    // A list's reading ends in the same steps; a function for them would take as many parameters and repeat the contract.
    let (word, work) = bits.split_at_mut(marks.len());
    let question = Question {
        marks,
        turns: 0,
        values,
    };
    reader.read(&question, places, work, word);
    take_out(plan, word, out)
}

// Reads a capture by its counts. However often it was edited, exported, imported, saved and loaded, the data are the sender's as long as
// the edits are charged less than 127 × the plan's weight in all.
pub fn read_counts<R: Reader<Count>>(
    reader: &R,
    capture: &Capture,
    soft: &mut [Count],
    bits: &mut [bool],
    out: &mut [u8],
) -> Result<usize, Refusal>
    ensures value { CaptureRead (R.Reader.reading reader.now) (captured capture.now) (values_of counted (captured capture.now)) (rows soft.old bits.old out.old) result (rows soft.new bits.new out.new) }
    ensures free { WorkingRowsFree (rows soft.old bits.old out.old) (rows soft.new bits.new out.new) }
    ensures near { IfOk result (λ k. NearReadsTrue count_kind (captured capture.now).marks_row (values_of counted (captured capture.now)) (take k out.new)) }
    ensures light { IfOk result (λ k. LightHistoriesReadTrue top_count (captured capture.now) (take k out.new)) }
{
    read_capture(reader, capture, soft, bits, out)
}
