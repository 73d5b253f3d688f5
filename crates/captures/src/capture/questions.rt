// The two questions about a word of N bits, codeword or not.
ghost use Rattle.std.specs.Prelude.{◌≡◌};
ghost use Rattle.captures.specs.Tops.{top_count};
ghost use Rattle.captures.specs.Captures.{against};
ghost use Rattle.captures.specs.Calls.{ShortfallTold, AgainstTold};
ghost use Rattle.captures.specs.Views.{captured};

use crate::capture::Capture;
use polar::refusal::Refusal;
use soft::count::Count;
use soft::kind::Listed;

impl Capture {
    // How far the capture falls short of the word: the sum over its symbols.
    pub fn shortfall(&self, word: &[u8]) -> Result<u32, Refusal>
        ensures { ShortfallTold top_count (captured self.now) word.now result }
    {
        self.plan.check_word(word)?;
        // (A rule of the project: the sum goes over counts and bits with their index, as it is defined.)
        let counts = self.counts();
        let mut sum = 0;
        for (i, count) in counts.iter().enumerate() {
            sum += Count::from(*count).shortfall(word[i] == 1);
        }
        Ok(sum)
    }

    // The first place whose count's sign contradicts the word: above zero at a bit 1, or below it at a bit 0.
    pub fn first_against(&self, word: &[u8]) -> Result<Option<usize>, Refusal>
        ensures { AgainstTold top_count (captured self.now) word.now result }
    {
        self.plan.check_word(word)?;
        let mut pairs = self.counts().iter().zip(word);
        Ok(pairs.position(|(count, b)| contradicts(*count, *b == 1)))
    }
}

// Whether a count's sign contradicts a bit.
fn contradicts(count: i16, bit: bool) -> bool
    ensures { result ≡ against count bit }
{
    if bit { count > 0 } else { count < 0 }
}
