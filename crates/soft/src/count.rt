// Counts: whole numbers, of which TOP is sure of bit 0 and -TOP of bit 1.
ghost use Rattle.std.specs.Prelude.{◌≡◌};
ghost use Rattle.polar.specs.declared.refusal.Refusal.TheVariants.{Range};
ghost use Rattle.soft.specs.Counts.{count_kind, count_score, counted, top_count};
ghost use Rattle.soft.specs.CountsLemmas.{count_rules, count_fair};

use super::kind::{Listed, Scored, Soft};
use polar::refusal::Refusal;

// The most that a count is in size at 0 turns.
// (Its own here, as in `levels` and `storage`: these crates do not know one another.)
pub const TOP: i32 = 127;

#[derive(Clone, Copy, PartialEq, Eq, Debug)]
#[repr(C)]
pub struct Count(pub i32);

impl From<i16> for Count {
    ghost from_gives = { λ n v. v ≡ counted n };

    fn from(n: i16) -> Count {
        Count(i32::from(n))
    }
}

impl Soft for Count {
    ghost kind = { count_kind };

    // Counts keep the rules of a soft kind.
    ghost rules = { count_rules };

    // Min-sum: the smaller size, negated where just one of the two is below 0.
    fn compare(self, other: Count, _turns: u32) -> Count {
        let size = self.0.abs().min(other.0.abs());
        if (self.0 < 0) != (other.0 < 0) {
            Count(-size)
        } else {
            Count(size)
        }
    }

    // The sum or the difference, never clipped.
    fn join(self, other: Count, left_bit: bool, _turns: u32) -> Count {
        if left_bit {
            Count(other.0 - self.0)
        } else {
            Count(other.0 + self.0)
        }
    }

    // 0 decides bit 0.
    fn decide(self) -> bool {
        self.0 < 0
    }
}

impl Scored for Count {
    ghost scoring = { count_score };

    // The score of a count is fair.
    ghost fair = { count_fair };

    fn score(self, bit: bool, _turns: u32) -> i32 {
        if bit { -self.0 } else { self.0 }
    }
}

impl Listed for Count {
    ghost unfit = { λ place. Range };

    fn fits(self) -> bool {
        self.0.unsigned_abs() <= TOP.unsigned_abs()
    }

    fn shortfall(self, bit: bool) -> u32 {
        let gap = if bit { TOP + self.0 } else { TOP - self.0 };
        gap.unsigned_abs()
    }

    fn unfit(_place: usize) -> Refusal {
        Refusal::Range
    }
}
