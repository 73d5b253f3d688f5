// The stored form, as it is written.
ghost use Rattle.std.specs.Prelude.{◌≡◌, ◌+◌, ◌^◌, ◌<◌, ◌≤◌, true, [], ◌∷◌, ◌++◌, map, length, unsigned_abs};
ghost use Rattle.std.specs.List.{flat_map};
ghost use Rattle.storage.specs.Contents.{content_of, top_count, all_small, Sound};
ghost use Rattle.storage.specs.Stored.{number, runs, code, stored};

use crate::VERSION;
use std::marker::Model;

// The longest stored form: 4 bytes in front, 4097 for runs of one mark each after an empty one, 2 for each count.
const LONGEST: usize = 12293;

// A stored form, or its beginning. (An array with its length: no memory is taken.)
#[derive(Drop)]
pub struct Form {
    bytes: [u8; LONGEST],
    len: usize,
}

// Clauses see the bytes that are written.
impl Model for Form {
    ghost use Rattle.std.specs.Prelude.{ℕ, ◌≤◌, List, take};
    ghost use Rattle.storage.specs.declared.form.TheConstants.{LONGEST};

    ghost Value = { List ℕ };

    ghost view = { λ f. take f.len f.bytes };

    ghost invariant = { λ f. f.len ≤ LONGEST };
}

// The code of a count: 2v from 0 up, -2v - 1 below.
fn coded(v: i16) -> u32
    requires { unsigned_abs v ≤ top_count }
    ensures { result ≡ code v }
{
    if v >= 0 {
        2 * v as u32
    } else {
        (-2 * v - 1) as u32
    }
}

impl Form {
    pub(crate) fn new() -> Self
        ensures { result ≡ [] }
    {
        Form {
            bytes: [0; LONGEST],
            len: 0,
        }
    }

    // Writes the stored form of marks, counts and exponent.
    pub(crate) fn push_content(&mut self, marks: &[bool], counts: &[i16], exponent: u8)
        requires empty { self.old ≡ [] }
        requires sound { Sound top_count (content_of marks.now counts.now exponent) }
        ensures { self.new ≡ stored top_count (content_of marks.now counts.now exponent) }
    {
        self.push_number(VERSION);
        self.push_number(marks.len() as u32);
        self.push_number(u32::from(exponent));
        self.push_runs(marks);
        self.push_counts(counts);
    }

    pub(crate) fn as_slice(&self) -> &[u8]
        ensures { result.now ≡ self.now }
    {
        &self.bytes[..self.len]
    }

    fn push(&mut self, byte: u8)
        requires { length self.old < LONGEST }
        ensures { self.new ≡ self.old ++ byte ∷ [] }
    {
        let len = self.len;
        self.bytes[len] = byte;
        self.len = len + 1;
    }

    // Writes `n` in groups of seven bits.
    fn push_number(&mut self, n: u32)
        requires small { n < 2 ^ 21 }
        requires room { length self.old + length (number n) ≤ LONGEST }
        ensures { self.new ≡ self.old ++ number n }
    {
        if n < 128 {
            self.push(n as u8);
            return;
        }
        self.push((128 + n % 128) as u8);
        if n < 16384 {
            self.push((n / 128) as u8);
            return;
        }
        self.push((128 + n / 128 % 128) as u8);
        self.push((n / 16384) as u8);
    }

    // Writes the runs of `marks`: an active first mark comes after a frozen run of 0.
    fn push_runs(&mut self, marks: &[bool])
        requires sized { (0 < length marks.now) × (length marks.now ≤ 4096) }
        requires room { length self.old + length (flat_map number (runs marks.now)) ≤ LONGEST }
        ensures { self.new ≡ self.old ++ flat_map number (runs marks.now) }
    {
        let active = marks[0];
        if active {
            self.push_number(0);
        }
        for run in marks.chunk_by(|a, b| a == b) {
            self.push_number(run.len() as u32);
        }
    }

    // Writes the codes of `counts`.
    fn push_counts(&mut self, counts: &[i16])
        requires small { all_small top_count counts.now ≡ true }
        requires room { length self.old + length (flat_map number (map code counts.now)) ≤ LONGEST }
        ensures { self.new ≡ self.old ++ flat_map number (map code counts.now) }
    {
        for v in counts {
            self.push_number(coded(*v));
        }
    }
}
