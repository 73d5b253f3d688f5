// The levels of a capture, out and in.
ghost use Rattle.captures.specs.Tops.{top_count};
ghost use Rattle.captures.specs.Calls.{Exported, Imported};
ghost use Rattle.captures.specs.Promises.{Returns};
ghost use Rattle.captures.specs.Views.{captured};

use crate::capture::Capture;
use polar::refusal::Refusal;

impl Capture {
    // Writes the level of each count, count × step exactly, into the front of `out` and answers how many they are.
    // Importing them again leaves the capture equal.
    pub fn export(&self, out: &mut [f32]) -> Result<usize, Refusal>
        ensures value { Exported top_count (captured self.now) out.old result out.new }
        ensures returns { Returns top_count (captured self.now) result out.new }
    {
        self.scale().export(self.counts.as_slice(), out)
    }

    // Replaces every count by that of its level, or none.
    pub fn import(&mut self, levels: &[f32]) -> Result<(), Refusal>
        ensures { Imported top_count (captured self.old) levels.now result (captured self.new) }
    {
        let scale = self.scale();
        scale.import(levels, self.counts.as_mut_slice())
    }
}
