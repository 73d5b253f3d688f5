// How a scale is made.
ghost use Rattle.levels.specs.Scales.{ScaleMade};

use super::Scale;
use polar::refusal::Refusal;

// The largest exponent.
// (Its own here, as the top below is: `levels`, `soft` and `storage` do not know one another.)
const MAX_EXPONENT: u8 = 6;

// The largest count.
const TOP: f32 = 127.0;

impl Scale {
    // The scale of an exponent from 0 to 6. A larger one is refused (`Range`).
    pub fn new(exponent: u8) -> Result<Scale, Refusal>
        ensures { ScaleMade exponent result }
    {
        if exponent > MAX_EXPONENT {
            return Err(Refusal::Range);
        }
        let step = 1.0 / f32::from(1u8 << exponent);
        Ok(Scale {
            step,
            top: TOP * step,
        })
    }
}
