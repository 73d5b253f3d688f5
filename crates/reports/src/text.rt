// Text that grows at its end: bytes, numbers, bits and lines.
ghost use Rattle.std.specs.Prelude.{◌≡◌, ◌+◌, ◌<◌, ◌≤◌, [], ◌∷◌, ◌++◌, length, decimal, vec_items, vec_len, IfOk};
ghost use Rattle.polar.specs.Bytes.{bit, bits};
ghost use Rattle.reports.specs.Text.{line, digit, digits};

use crate::page::PAGE_ROOM;
use itoa::Buffer;
use std::alloc::{AllocError, Global};
use std::marker::Model;

// Text in room that is reserved once, so that no later call needs memory. A contract sees the row of its bytes, with its room.
#[derive(Drop)]
pub struct Text {
    bytes: Vec<u8>,
}

impl Model for Text {
    ghost use Rattle.std.specs.Prelude.{ℕ, ◌≤◌, Vec, vec_capacity};
    ghost use Rattle.std.specs.declared.alloc.Global.{Global};
    ghost use Rattle.reports.specs.declared.page.TheConstants.{PAGE_ROOM};

    ghost Value = { Vec ℕ Global };

    ghost view = { λ t. t.bytes };

    ghost invariant = { λ t. PAGE_ROOM ≤ vec_capacity t.bytes };
}

impl Text {
    pub(crate) fn new(heap: Global) -> Result<Text, AllocError>
        ensures { IfOk result (λ text. vec_items text ≡ []) }
    {
        let bytes = Vec::with_capacity(heap, PAGE_ROOM)?;
        Ok(Text { bytes })
    }

    pub(crate) fn as_bytes(&self) -> &[u8]
        ensures { result.now ≡ vec_items self.now }
    {
        self.bytes.as_slice()
    }

    pub(crate) fn clear(&mut self)
        ensures { vec_items self.new ≡ [] }
    {
        self.bytes.clear();
    }

    // Adds a byte.
    fn push(&mut self, byte: u8)
        requires { vec_len self.old < PAGE_ROOM }
        ensures { vec_items self.new ≡ vec_items self.old ++ byte ∷ [] }
    {
        self.bytes.push_reserved(byte);
    }

    // Adds bytes.
    pub(crate) fn put(&mut self, bytes: &[u8])
        requires { vec_len self.old + length bytes.now ≤ PAGE_ROOM }
        ensures { vec_items self.new ≡ vec_items self.old ++ bytes.now }
    {
        self.bytes.extend_from_slice(bytes).unwrap();
    }

    // Adds a number in decimal.
    pub(crate) fn put_decimal(&mut self, number: usize)
        requires { vec_len self.old + 20 ≤ PAGE_ROOM }
        ensures value { vec_items self.new ≡ vec_items self.old ++ decimal number }
        ensures few { vec_len self.new ≤ vec_len self.old + 20 }
    {
        let mut buffer = Buffer::new();
        self.put(buffer.format(number).as_bytes());
    }

    // Adds bits as the characters 0 and 1.
    pub(crate) fn put_digits(&mut self, word: &[u8])
        requires { vec_len self.old + length word.now ≤ PAGE_ROOM }
        ensures { vec_items self.new ≡ vec_items self.old ++ digits (bits word.now) }
    {
        for b in word {
            self.push(digit_of(*b));
        }
    }

    // Adds a line that ends in a number.
    pub(crate) fn put_number_line(&mut self, head: &[u8], number: usize)
        requires { vec_len self.old + length head.now + 21 ≤ PAGE_ROOM }
        ensures value { vec_items self.new ≡ vec_items self.old ++ line (head.now ++ decimal number) }
        ensures few { vec_len self.new ≤ vec_len self.old + length head.now + 21 }
    {
        self.put(head);
        self.put_decimal(number);
        self.put(b"\n");
    }
}

// The character of a bit.
fn digit_of(b: u8) -> u8
    ensures { result ≡ digit (bit b) }
{
    if b == 1 { b'1' } else { b'0' }
}
