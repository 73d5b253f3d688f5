// Loading marks, counts and exponent from bytes.
ghost use Rattle.std.specs.Prelude.{◌≡◌, ◌≤◌, length, IfOk};
ghost use Rattle.storage.specs.Contents.{top_count};
ghost use Rattle.storage.specs.Reading.{outcome};
ghost use Rattle.storage.specs.Laws.{AcceptsOnlyWhatIsStored, NumbersAreRead, RefusalsArePlaced};
ghost use Rattle.storage.specs.Calls.{Fronts, Loaded, RowsLoaded};

use crate::cursor::Cursor;
use crate::{MAX_EXPONENT, VERSION};
use polar::plan::MAX_LENGTH;
use polar::refusal::Refusal;
use std::marker::Model;

// What was loaded besides the rows: their length and the exponent.
#[derive(Clone, Copy, PartialEq, Eq, Debug)]
pub struct Header {
    pub length: usize,
    pub exponent: u8,
}

// What was loaded: the marks, as many counts, and the exponent. (Arrays with their length: no memory is taken.)
#[derive(Drop)]
pub struct Block {
    marks: [bool; MAX_LENGTH],
    counts: [i16; MAX_LENGTH],
    len: usize,
    exponent: u8,
}

// Clauses see what is stored.
impl Model for Block {
    ghost use Rattle.std.specs.Prelude.{◌≤◌, take};
    ghost use Rattle.storage.specs.Contents.{Content, content_of};

    ghost Value = { Content };

    ghost view = { λ b. content_of (take b.len b.marks) (take b.len b.counts) b.exponent };

    ghost invariant = { λ b. b.len ≤ 4096 };
}

impl Block {
    pub fn marks(&self) -> &[bool]
        ensures { result.now ≡ self.now.marks }
    {
        &self.marks[..self.len]
    }

    pub fn counts(&self) -> &[i16]
        ensures { result.now ≡ self.now.counts }
    {
        &self.counts[..self.len]
    }

    pub fn exponent(&self) -> u8
        ensures { result ≡ self.now.exponent }
    {
        self.exponent
    }

    // How many symbols the block has, and its exponent.
    pub fn header(&self) -> Header
        ensures { (result.length ≡ length self.now.marks) × (result.exponent ≡ self.now.exponent) }
    {
        Header {
            length: self.len,
            exponent: self.exponent,
        }
    }
}

// Reads the fields of `bytes` into the fronts of two rows, and refuses bytes that follow them.
fn read_rows(bytes: &[u8], marks: &mut [bool], counts: &mut [i16]) -> Result<Header, Refusal>
    requires { (length marks.old ≡ 4096) × (length counts.old ≡ 4096) }
    ensures fronts { Fronts top_count bytes.now result marks.new counts.new }
    ensures sized { IfOk result (λ h. (1 ≤ h.length) × (h.length ≤ 4096)) }
{
    let mut input = Cursor::new(bytes);
    input.field(VERSION, VERSION)?;
    let length = input.field(1, MAX_LENGTH as u32)? as usize;
    let exponent = input.field(0, u32::from(MAX_EXPONENT))? as u8;
    input.marks(&mut marks[..length])?;
    input.counts(&mut counts[..length])?;
    input.end()?;
    Ok(Header { length, exponent })
}

// What `bytes` store, or the first refusal in their order. (The rows are read where they lie in the block.)
pub fn load(bytes: &[u8]) -> Result<Block, Refusal>
    ensures loaded { Loaded top_count bytes.now result }
    ensures accepts { AcceptsOnlyWhatIsStored top_count }
    ensures numbers { NumbersAreRead }
    ensures placed { RefusalsArePlaced top_count }
{
    let mut block = Block {
        marks: [false; MAX_LENGTH],
        counts: [0; MAX_LENGTH],
        len: 0,
        exponent: 0,
    };
    let header = read_rows(bytes, &mut block.marks, &mut block.counts)?;
    block.len = header.length;
    block.exponent = header.exponent;
    Ok(block)
}

// The same into the fronts of two rows, whose tails stay; a refusal leaves both as they were. (For callers with rows of their own: a block
// that is handed over is copied whole, which takes twice the time of reading a short one.)
pub fn load_rows(
    bytes: &[u8],
    marks: &mut [bool; MAX_LENGTH],
    counts: &mut [i16; MAX_LENGTH],
) -> Result<Header, Refusal>
    ensures loaded { RowsLoaded top_count bytes.now marks.old counts.old result marks.new counts.new }
    ensures accepts { AcceptsOnlyWhatIsStored top_count }
    ensures numbers { NumbersAreRead }
    ensures placed { RefusalsArePlaced top_count }
{
    let mut new_marks = [false; MAX_LENGTH];
    let mut new_counts = [0; MAX_LENGTH];
    let header = read_rows(bytes, &mut new_marks, &mut new_counts)?;
    let n = header.length;
    marks[0..n].copy_from_slice(&new_marks[0..n]);
    counts[0..n].copy_from_slice(&new_counts[0..n]);
    Ok(header)
}
