// Erasures: a bit that was received, or nothing.
ghost use Rattle.std.specs.Prelude.{◌≡◌, ◌^◌, ◌≤◌, pos};
ghost use Rattle.soft.specs.Erasures.{erasure_kind, erasure_score, moved};
ghost use Rattle.polar.specs.declared.refusal.Refusal.TheVariants.{Range};
ghost use Rattle.soft.specs.ErasuresLemmas.{erasure_rules, erasure_fair};

use super::kind::{Listed, Scored, Soft};
use polar::refusal::Refusal;

// (A sort of value of its own with three cases: `Unknown` is received like the others, and no bit is missing.)
#[derive(Clone, Copy, PartialEq, Eq, Debug)]
pub enum Erasure {
    Zero,
    One,
    Unknown,
}

// The shortfall of a known value from the other bit, above every limit.
const FAR: u32 = 8192;

impl Soft for Erasure {
    ghost kind = { erasure_kind };

    // Erasures keep the rules of a soft kind.
    ghost rules = { erasure_rules };

    // The sum of two known values, else unknown.
    fn compare(self, other: Erasure, _turns: u32) -> Erasure {
        match (self, other) {
            (Erasure::Unknown, _) | (_, Erasure::Unknown) => Erasure::Unknown,
            (v, w) if v == w => Erasure::Zero,
            _ => Erasure::One,
        }
    }

    // The left bit is added to the first value. An unknown value gives way, and two that differ leave the bit unknown.
    fn join(self, other: Erasure, left_bit: bool, _turns: u32) -> Erasure {
        match (turned(self, left_bit), other) {
            (Erasure::Unknown, w) => w,
            (v, Erasure::Unknown) => v,
            (v, w) if v == w => v,
            _ => Erasure::Unknown,
        }
    }

    // An unknown value decides bit 0.
    fn decide(self) -> bool {
        self == Erasure::One
    }
}

// A value plus a bit; an unknown one stays so.
fn turned(v: Erasure, bit: bool) -> Erasure
    ensures { result ≡ moved v bit }
{
    match v {
        Erasure::Unknown => v,
        _ if (v == Erasure::One) == bit => Erasure::Zero,
        _ => Erasure::One,
    }
}

impl Scored for Erasure {
    ghost scoring = { erasure_score };

    // The score of an erasure is fair.
    ghost fair = { erasure_fair };

    // The limit for the value's own bit, its opposite for the other.
    fn score(self, bit: bool, turns: u32) -> i32 {
        let sure = power(turns);
        match self {
            Erasure::Unknown => 0,
            _ if (self == Erasure::One) == bit => sure,
            _ => -sure,
        }
    }
}

// 2 to the number of turns.
fn power(turns: u32) -> i32
    requires { turns ≤ 12 }
    ensures { (result ≡ pos (2 ^ turns)) × (2 ^ turns ≤ 4096) }
{
    1 << turns
}

impl Listed for Erasure {
    ghost unfit = { λ place. Range };

    // Every value fits.
    fn fits(self) -> bool {
        true
    }

    fn shortfall(self, bit: bool) -> u32 {
        match self {
            Erasure::Unknown => 1,
            _ if (self == Erasure::One) == bit => 0,
            _ => FAR,
        }
    }

    fn unfit(_place: usize) -> Refusal {
        Refusal::Range
    }
}
