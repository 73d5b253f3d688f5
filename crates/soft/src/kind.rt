// What a decoder asks of a kind of soft value: to compare, join and decide; to score; and to be read from a list.
ghost use Rattle.std.specs.Prelude.{◌≡◌, ℕ, ◌≤◌, T};
ghost use Rattle.polar.specs.declared.refusal.Refusal.{Refusal};
ghost use Rattle.soft.specs.Kind.{Kind, Rules, Score, Fair, AllFair};

use polar::refusal::Refusal;

// A kind of soft value. Where v falls short of b by s, and w of c by t:
// compare(v, w) fits the same turns and falls short of b + c by at most s + t;
// join(v, w) under the left bit b + c fits one turn more and falls short of c, there, by at most s + t;
// decide(v) is b where s is below the limit.
pub trait Soft: Copy {
    ghost kind: { Kind Self };

    // What two values say of the sum of their bits, the left bit.
    fn compare(self, other: Self, turns: u32) -> Self
        requires { (turns ≤ 12) × ((T (kind.fitting self turns)) × (T (kind.fitting other turns))) }
        ensures { result ≡ kind.compared self other };

    // What the two say of the second one's bit, once the left bit is known.
    fn join(self, other: Self, left_bit: bool, turns: u32) -> Self
        requires { (turns ≤ 11) × ((T (kind.fitting self turns)) × (T (kind.fitting other turns))) }
        ensures { result ≡ kind.joined self other left_bit };

    // The bit that the value speaks for.
    fn decide(self) -> bool
        ensures { result ≡ kind.decided self };

    ghost rules: { Rules kind };
}

// A kind whose values are weighed against each bit. Where v falls short of b by s, and the limit is L, the score of b is above that of
// the other bit by at least 2 (L - s). No score is above L in size, and the decided bit's is not below the other's.
pub trait Scored: Soft {
    ghost scoring: { Score Self };

    // How much the value speaks for the bit.
    fn score(self, bit: bool, turns: u32) -> i32
        requires { (turns ≤ 12) × (T (Self.Soft.kind.fitting self turns)) }
        ensures value { result ≡ scoring self bit turns }
        ensures fair { Fair Self.Soft.kind scoring self bit turns };

    ghost fair: { AllFair Self.Soft.kind scoring };
}

// A kind whose values are read from a list, at 0 turns.
pub trait Listed: Soft {
    ghost unfit: { ℕ → Refusal };

    // Whether the value may stand in a list.
    fn fits(self) -> bool
        ensures { result ≡ Self.Soft.kind.fitting self 0 };

    // How far the value falls short of the bit; a u32 holds the sum of 4096 of these.
    fn shortfall(self, bit: bool) -> u32
        requires { T (Self.Soft.kind.fitting self 0) }
        ensures value { result ≡ Self.Soft.kind.shortfall self bit 0 }
        ensures most { result ≤ 8192 };

    // The refusal of a list whose first value that does not fit stands at `place`.
    fn unfit(place: usize) -> Refusal
        ensures { result ≡ unfit place };
}
