// Reading bytes as the fields of the stored form.
ghost use Rattle.std.specs.Prelude.{◌≡◌, ◌-◌, ◌*◌, ◌<◌, ◌≤◌, true, ◌++◌, length, take, IfOk};
ghost use Rattle.storage.specs.Contents.{top_count};
ghost use Rattle.storage.specs.Cursors.{read_by, rest, Reads, Fills, closed_by};
ghost use Rattle.storage.specs.Reading.{got, mapped, ended, byte_at, number_at, field_at, later_runs_at, marks_at, counts_at, coded_count};

use crate::TOP;
use polar::refusal::Refusal;

// A place in the input. (The bytes and the place, not the bytes that are left: a refusal tells the place.)
#[derive(Drop)]
pub struct Cursor<'a> {
    bytes: &'a [u8],
    at: usize,
}

// The number that ends with byte `last`; 0 there would be a longer form than it needs.
fn closed(first: usize, last: u32, value: u32) -> Result<u32, Refusal>
    ensures { result ≡ closed_by first last value }
{
    if last == 0 {
        return Err(Refusal::NumberForm(first));
    }
    Ok(value)
}

// The count that a code stands for.
fn decoded(c: u32) -> i16
    requires { c ≤ 2 * top_count }
    ensures { result ≡ coded_count c }
{
    let half = (c / 2) as i16;
    if c % 2 == 0 { half } else { -half - 1 }
}

impl<'a> Cursor<'a> {
    pub(crate) fn new(bytes: &'a [u8]) -> Self
        ensures { (result.at ≡ 0) × (rest result ≡ bytes.now) }
    {
        Cursor { bytes, at: 0 }
    }
}

impl Cursor<'_> {
    // The byte at the cursor.
    fn byte(&mut self) -> Result<u32, Refusal>
        ensures reads { Reads (read_by byte_at self.old) result self.new }
        ensures small { IfOk result (λ b. b < 256) }
    {
        if self.at >= self.bytes.len() {
            return Err(Refusal::InputEnds(self.at));
        }
        let b = self.bytes[self.at];
        self.at += 1;
        Ok(u32::from(b))
    }

    // A number of at most three groups of seven bits, in its shortest form.
    fn number(&mut self) -> Result<u32, Refusal>
        ensures { Reads (read_by number_at self.old) result self.new }
    {
        let first = self.at;
        let a = self.byte()?;
        if a < 128 {
            return Ok(a);
        }
        let b = self.byte()?;
        if b < 128 {
            return closed(first, b, a - 128 + 128 * b);
        }
        let c = self.byte()?;
        if c < 128 {
            return closed(first, c, a - 128 + 128 * (b - 128) + 16384 * c);
        }
        Err(Refusal::NumberForm(first))
    }

    // A number from `low` to `high`.
    pub(crate) fn field(&mut self, low: u32, high: u32) -> Result<u32, Refusal>
        ensures reads { Reads (read_by (field_at low high) self.old) result self.new }
        ensures within { IfOk result (λ v. (low ≤ v) × (v ≤ high)) }
    {
        let first = self.at;
        let value = self.number()?;
        if value < low || value > high {
            return Err(Refusal::FieldRule(first));
        }
        Ok(value)
    }

    // Fills `marks` by the runs after the first: active and frozen in turn, active first.
    fn later_runs(&mut self, marks: &mut [bool]) -> Result<(), Refusal>
        requires { length marks.old ≤ 4096 }
        ensures { Fills (read_by (later_runs_at (length marks.old) true (length marks.old)) self.old) result marks.new self.new }
    {
        // (The place is counted: after a loop that moves on to the rest of a slice, the proof no longer knows what was written
        // in front; a recursion on the rest would go 4096 deep.)
        let mut from = 0;
        let mut mark = true;
        while from < marks.len() {
            let run = self.field(1, (marks.len() - from) as u32)? as usize;
            marks[from..from + run].fill(mark);
            from += run;
            mark = !mark;
        }
        Ok(())
    }

    // Fills `marks` by runs of frozen and active marks in turn, frozen first.
    pub(crate) fn marks(&mut self, marks: &mut [bool]) -> Result<(), Refusal>
        requires { (1 ≤ length marks.old) × (length marks.old ≤ 4096) }
        ensures { Fills (read_by (marks_at (length marks.old)) self.old) result marks.new self.new }
    {
        let frozen = self.field(0, marks.len() as u32 - 1)? as usize;
        let (front, rest) = marks.split_at_mut(frozen);
        front.fill(false);
        self.later_runs(rest)
    }

    // Fills `counts` by their codes.
    pub(crate) fn counts(&mut self, counts: &mut [i16]) -> Result<(), Refusal>
        ensures { Fills (read_by (counts_at top_count (length counts.old)) self.old) result counts.new self.new }
    {
        for count in counts.iter_mut() {
            *count = decoded(self.field(0, 2 * u32::from(TOP))?);
        }
        Ok(())
    }

    // Refuses bytes that remain.
    pub(crate) fn end(&self) -> Result<(), Refusal>
        ensures { result ≡ ended (got tt self.now.at (rest self.now)) }
    {
        if self.at < self.bytes.len() {
            return Err(Refusal::BytesRemain(self.at));
        }
        Ok(())
    }
}
