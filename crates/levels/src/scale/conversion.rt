// From a count to its level, and back.
ghost use Rattle.std.specs.Prelude.{◌≡◌, ◌≤◌, false, ℤ, pos, Some, Ok, is_nan, unsigned_abs};
ghost use Rattle.std.specs.Float.Ieee.{to_signed};
ghost use Rattle.std.specs.Float.{round_with, fin, binary32};
ghost use Rattle.levels.specs.Rounding.{nearest, RoundingStands, ClippingCommutes};
ghost use Rattle.levels.specs.Level.{largest_count, exponent_of, IsLevel, level_of, count_of};
ghost use Rattle.levels.specs.Conversion.{nearest_or_zero, Converted};

use super::Scale;
use polar::refusal::Refusal;
use std::num::saturating_f32_to_i16;

impl Scale {
    // The level of a count, exactly. That of a count up to the largest is converted back to it.
    pub fn level_of(&self, count: i16) -> f32
        ensures exact { IsLevel (exponent_of self.now.step) count result }
        ensures value { result ≡ level_of (exponent_of self.now.step) count }
        ensures zero { count ≡ pos 0 → result ≡ fin false 0 (pos 0) }
        ensures returns { unsigned_abs count ≤ largest_count → count_of largest_count (exponent_of self.now.step) result ≡ Some count }
    {
        f32::from(count) * self.step
    }

    // The count of a level: the level is multiplied by 2^k, clipped to -127..127 and taken to the
    // nearest whole number, halves away from zero. What is not a number is refused (`Range`).
    pub fn count_of(&self, level: f32) -> Result<i16, Refusal>
        ensures value { Converted largest_count (exponent_of self.now.step) level result }
        ensures within { (c : ℤ) → result ≡ Ok c → unsigned_abs c ≤ largest_count }
        ensures rounding { RoundingStands }
        ensures order { ClippingCommutes nearest }
    {
        if level.is_nan() {
            return Err(Refusal::Range);
        }
        Ok(self.nearest_count(level))
    }

    // The count of a level; 0 for what is not a number, so that it may be asked of any level of a row.
    pub(super) fn nearest_count(&self, level: f32) -> i16
        ensures { result ≡ nearest_or_zero largest_count (exponent_of self.now.step) level }
    {
        let limit = self.limit();
        let scaled = level * self.factor();
        let clipped = scaled.clamp(-limit, limit);
        nearest_whole(clipped)
    }
}

// The whole number nearest to x, halves away from zero; what an i16 cannot hold clips.
fn nearest_whole(x: f32) -> i16
    ensures { result ≡ to_signed 15 (round_with nearest nearest binary32 x) }
{
    saturating_f32_to_i16(x.round())
}
