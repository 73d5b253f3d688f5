// What every reader offers, and the rules that it keeps.
ghost use Rattle.std.specs.Prelude.{◌≡◌, ◌≤◌, length};
ghost use Rattle.readers.specs.Readings.{Reading, ReaderRules, Ready};

use crate::question::Question;
use soft::kind::Soft;

// A reader is asked about a node, and answers a label of it.
// Layers are readers that hold another one; a pile is a reader under any number of layers.
pub trait Reader<K: Soft> {
    ghost reading: { Self → Reading K };

    // Whether the reader takes a node with these marks.
    fn takes(&self, marks: &[bool]) -> bool
        ensures { result ≡ (reading self.now).taking marks.now };

    // How many soft places it works in at a node of this length.
    fn soft_places(&self, len: usize) -> usize
        requires { len ≤ 4096 }
        ensures { result ≡ (reading self.now).soft_need len };

    // How many bit places.
    fn bit_places(&self, len: usize) -> usize
        requires { len ≤ 4096 }
        ensures { result ≡ (reading self.now).bit_need len };

    // Writes the answer into `out`, working in `soft` and `bits`. (Lent one by one, since the clauses speak of the length of each.)
    fn read(&self, question: &Question<'_, K>, soft: &mut [K], bits: &mut [bool], out: &mut [bool])
        requires { Ready (reading self.now) question.now.marks.now (length soft.old) (length bits.old) (length out.old) }
        ensures { out.new ≡ (reading self.now).answer question.now.marks.now question.now.turns question.now.values.now };

    ghost rules: { (reader : Self) → ReaderRules K.Soft.kind (reading reader) };
}
