// A capture as bytes, and back.
ghost use Rattle.captures.specs.Tops.{top_count};
ghost use Rattle.captures.specs.Calls.{Saved, Loaded};
ghost use Rattle.captures.specs.Promises.{LoadsBack, SavesBack};
ghost use Rattle.captures.specs.Views.{captured};

use crate::capture::Capture;
use polar::plan::MAX_LENGTH;
use polar::refusal::Refusal;
use storage::loading;
use storage::storing::store;

impl Capture {
    // Writes the stored form into the front of `out` and answers its length. Loading it gives an equal capture.
    pub fn save(&self, out: &mut [u8]) -> Result<usize, Refusal>
        ensures value { Saved top_count (captured self.now) out.old result out.new }
        ensures loads { LoadsBack top_count (captured self.now) result out.new }
    {
        store(
            self.plan.marks(),
            self.counts.as_slice(),
            self.exponent,
            out,
        )
    }

    // Replaces the capture by the one that the bytes store. They are its stored form, and no other bytes are.
    pub fn load(&mut self, bytes: &[u8]) -> Result<(), Refusal>
        ensures value { Loaded top_count (captured self.old) bytes.now result (captured self.new) }
        ensures saves { SavesBack top_count bytes.now result (captured self.new) }
    {
        // (Local rows, which take no memory.)
        let mut marks = [false; MAX_LENGTH];
        let mut counts = [0; MAX_LENGTH];
        let header = loading::load_rows(bytes, &mut marks, &mut counts)?;
        let n = header.length;
        self.replace(&marks[0..n], &counts[0..n], header.exponent);
        Ok(())
    }
}
