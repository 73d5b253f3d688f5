// Why a call was refused. A refused call changes nothing.
ghost use Rattle.std.specs.Prelude.{◌≡◌};
ghost use Rattle.polar.specs.Refusals.{number_of, place_of};

use std::fmt;

// One variant for each row of docs/REFUSALS.md; those of stored input carry the place of the byte they speak of.
#[derive(Clone, Copy, PartialEq, Eq, Debug)]
pub enum Refusal {
    // The length is 0 or above 4096.
    Length,
    // The number of marks is not the length, a mark is not 0 or 1, or none is 1.
    Marks,
    // The number of data is not the number of active leaves, or a datum or a codeword bit is not 0 or 1.
    Data,
    // The place is not below the length.
    Place,
    // An exponent, a count, a weakening or a threshold is out of range, a level is not a number, or a listed value does not fit.
    Range,
    // The readers need more working places than can be had, or a working buffer is short.
    WorkingRoom,
    // The output buffer is short.
    Output,
    // The input ends before a field is complete; its length.
    InputEnds(usize),
    // A number is not in its form; its first byte.
    NumberForm(usize),
    // A field is against its rule; its first byte.
    FieldRule(usize),
    // Bytes remain after the last field; the first of them.
    BytesRemain(usize),
    // The readers do not take the plan.
    NotTaken,
    // The number of levels, of listed values or of codeword bits is not the length.
    ItemCount,
}

impl Refusal {
    // The refusal's number, 1 to 13.
    pub fn number(self) -> u8
        ensures { result ≡ number_of self }
    {
        match self {
            Refusal::Length => 1,
            Refusal::Marks => 2,
            Refusal::Data => 3,
            Refusal::Place => 4,
            Refusal::Range => 5,
            Refusal::WorkingRoom => 6,
            Refusal::Output => 7,
            Refusal::InputEnds(_) => 8,
            Refusal::NumberForm(_) => 9,
            Refusal::FieldRule(_) => 10,
            Refusal::BytesRemain(_) => 11,
            Refusal::NotTaken => 12,
            Refusal::ItemCount => 13,
        }
    }

    // The place in stored input that the refusal speaks of.
    pub fn place(self) -> Option<usize>
        ensures { result ≡ place_of self }
    {
        match self {
            Refusal::InputEnds(place)
            | Refusal::NumberForm(place)
            | Refusal::FieldRule(place)
            | Refusal::BytesRemain(place) => Some(place),
            _ => None,
        }
    }
}

// The number, and the place where the refusal has one.
impl fmt::Display for Refusal {
    ghost use Rattle.std.specs.Prelude.{Some};
    ghost use Rattle.polar.specs.Refusals.{refusal_text};

    ghost output = { λ refusal. Some (refusal_text refusal) };

    fn fmt<W: fmt::Write>(&self, f: &mut fmt::Formatter<W>) -> fmt::Result {
        let number = self.number();
        match self.place() {
            Some(place) => write!(f, "refused {number} at {place}"),
            None => write!(f, "refused {number}"),
        }
    }
}

impl std::error::Error for Refusal {}
