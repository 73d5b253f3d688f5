// How the tour prints rows of bits, numbers and bytes.
use std::fmt;

// Bits in a row, be they bytes 0 and 1 or marks, of which an active leaf is 1.
#[derive(Drop)]
pub struct Bits<'a, T>(pub &'a [T]);

impl<T: Copy + Into<u8>> fmt::Display for Bits<'_, T> {
    fn fmt<W: fmt::Write>(&self, f: &mut fmt::Formatter<W>) -> fmt::Result {
        for bit in self.0 {
            let digit: u8 = (*bit).into();
            write!(f, "{digit}")?;
        }
        Ok(())
    }
}

// Counts, levels, places or bytes, with a space between them.
#[derive(Drop)]
pub struct Spaced<'a, T>(pub &'a [T]);

impl<T: fmt::Display> fmt::Display for Spaced<'_, T> {
    fn fmt<W: fmt::Write>(&self, f: &mut fmt::Formatter<W>) -> fmt::Result {
        for (i, value) in self.0.iter().enumerate() {
            if i > 0 {
                write!(f, " ")?;
            }
            write!(f, "{value}")?;
        }
        Ok(())
    }
}

// A byte as two hexadecimal digits.
#[derive(Clone, Copy)]
pub struct Hex(pub u8);

impl fmt::Display for Hex {
    fn fmt<W: fmt::Write>(&self, f: &mut fmt::Formatter<W>) -> fmt::Result {
        let byte = self.0;
        write!(f, "{byte:02X}")
    }
}
