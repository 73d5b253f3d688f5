// Comparing a fresh block with a kept capture.
ghost use Rattle.std.specs.Prelude.{◌≡◌, true, OnOk};
ghost use Rattle.polar.specs.Bytes.{bytes};
ghost use Rattle.soft.specs.Counts.{top_count};
ghost use Rattle.readers.specs.Blocks.{NearReadsTrue};
ghost use Rattle.captures.specs.Views.{captured};
ghost use Rattle.analyser.specs.Comparing.{data_read, data_kept, lent, Compared, LentRowsFree};
ghost use Rattle.analyser.specs.Assurance.{LightHistoriesReadTrue, BoundCannotBeRaised};

use crate::reading::read_counts;
use captures::capture::Capture;
use polar::plan::MAX_LENGTH;
use polar::refusal::Refusal;
use readers::lists::{check_pile, read_list};
use readers::reader::Reader;
use soft::count::Count;
use soft::kind::{Listed, Soft};

// Reads a fresh list of values through one pile and a kept capture of the same plan by its counts through another, and answers whether
// their data agree. `soft`, `counts` and `bits` are lent to work in.
#[tactic(auto, using(crate::proofs::Comparisons::raised_never))]
pub fn compare_readings<K: Listed, P: Reader<K>, R: Reader<Count>>(
    fresh_reader: &P,
    values: &[K],
    soft: &mut [K],
    kept_reader: &R,
    capture: &Capture,
    counts: &mut [Count],
    bits: &mut [bool],
) -> Result<bool, Refusal>
    ensures value { Compared K.Soft.kind K.Listed.unfit (P.Reader.reading fresh_reader.now) (R.Reader.reading kept_reader.now) (captured capture.now) values.now (lent soft.old counts.old bits.old) result (lent soft.new counts.new bits.new) }
    ensures free { LentRowsFree (lent soft.old counts.old bits.old) (lent soft.new counts.new bits.new) }
    ensures near { OnOk result (NearReadsTrue K.Soft.kind (captured capture.now).marks_row values.now (bytes (data_read (P.Reader.reading fresh_reader.now) (captured capture.now).marks_row values.now))) }
    ensures light { OnOk result (LightHistoriesReadTrue top_count (captured capture.now) (bytes (data_kept (R.Reader.reading kept_reader.now) (captured capture.now)))) }
    ensures tight { BoundCannotBeRaised top_count (captured capture.now).marks_row }
{
    let plan = capture.plan();
    check_pile(kept_reader, plan, counts.len(), bits.len())?;
    // (Local rows, which take no memory; the readings answer how much of them they fill.)
    let mut fresh = [0u8; MAX_LENGTH];
    let fresh_len = read_list(fresh_reader, plan, values, soft, bits, &mut fresh)?;
    let mut kept = [0u8; MAX_LENGTH];
    let kept_len = read_counts(kept_reader, capture, counts, bits, &mut kept)?;
    Ok(fresh[0..fresh_len] == kept[0..kept_len])
}
