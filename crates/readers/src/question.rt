// What a reader is asked.
ghost use Rattle.std.proofs.Props.{props};
ghost use Rattle.readers.specs.Readings.{Posed};

use soft::kind::Soft;

// A node as it is given to a reader: its marks, its turns and a fitting soft value for each symbol.
#[derive(Drop)]
pub struct Question<'a, K: Soft> {
    pub marks: &'a [bool],
    pub turns: u32,
    pub values: &'a [K],
    pub ghost posed: { Posed K.Soft.kind marks.now turns values.now } by { Prim.hlevel props },
}
