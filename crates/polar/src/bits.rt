// Bits as bytes 0 and 1, which is how callers pass and receive them.
ghost use Rattle.std.specs.Prelude.{◌≡◌, ◌≤◌, ◌++◌, length, drop};
ghost use Rattle.polar.specs.Words.{trues};
ghost use Rattle.polar.specs.Bytes.{all_bits, bits, bytes};

use crate::rows::{write_all, write_front};

// Whether each byte is 0 or 1. (`fold` tests every byte with no way out in between, so that many are tested at a time;
// `all` would stop at the first that is neither.)
pub fn are_bits(src: &[u8]) -> bool
    ensures { result ≡ all_bits src.now }
{
    src.iter().fold(true, |all, b| all & (*b < 2))
}

// How many bits are set.
pub fn count_ones(word: &[bool]) -> usize
    ensures { result ≡ trues word.now }
{
    word.iter().map(|b| usize::from(*b)).sum()
}

// Writes the bits that the bytes stand for.
pub(crate) fn put_bits(src: &[u8], word: &mut [bool])
    requires { length word.old ≡ length src.now }
    ensures { word.new ≡ bits src.now }
{
    write_all(word, src.iter().copied().map(|b| b == 1));
}

// Writes a word's bits into the front of `out`.
pub(crate) fn write_bytes(word: &[bool], out: &mut [u8])
    requires { length word.now ≤ length out.old }
    ensures { out.new ≡ bytes word.now ++ drop (length word.now) out.old }
{
    write_front(out, word.iter().map(|b| u8::from(*b)));
}
