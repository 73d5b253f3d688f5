// Storing marks, counts and exponent to bytes.
ghost use Rattle.std.specs.Prelude.{◌≡◌};
ghost use Rattle.storage.specs.Contents.{content_of, top_count, all_small};
ghost use Rattle.storage.specs.Laws.{LoadsWhatIsStored};
ghost use Rattle.storage.specs.Calls.{Stores};

use crate::form::Form;
use crate::{MAX_EXPONENT, TOP};
use polar::bits::count_ones;
use polar::plan::check_length;
use polar::refusal::Refusal;

// Whether no count is larger in size than the top. (`fold` tests every count with no way out in between, so that many are
// tested at a time; `all` would stop at the first that is larger.)
fn are_small(counts: &[i16]) -> bool
    ensures { result ≡ all_small top_count counts.now }
{
    counts
        .iter()
        .fold(true, |all, v| all & (v.unsigned_abs() <= TOP))
}

// Writes the stored form of marks, counts and exponent into the front of `out`, whose tail stays, and answers its length;
// a refusal leaves `out` as it was. (The three are lent one by one, from whatever holds them; `Block` is for what is loaded.)
#[tactic(auto, using(crate::proofs::RoundTrip::loads_what_is_stored))]
pub fn store(marks: &[bool], counts: &[i16], exponent: u8, out: &mut [u8]) -> Result<usize, Refusal>
    ensures stores { Stores top_count (content_of marks.now counts.now exponent) out.old result out.new }
    ensures loads { LoadsWhatIsStored top_count }
{
    check_length(marks.len())?;
    if count_ones(marks) == 0 {
        return Err(Refusal::Marks);
    }
    if counts.len() != marks.len() {
        return Err(Refusal::ItemCount);
    }
    if !are_small(counts) || exponent > MAX_EXPONENT {
        return Err(Refusal::Range);
    }
    let mut form = Form::new();
    form.push_content(marks, counts, exponent);
    let bytes = form.as_slice();
    if out.len() < bytes.len() {
        return Err(Refusal::Output);
    }
    out[..bytes.len()].copy_from_slice(bytes);
    Ok(bytes.len())
}
