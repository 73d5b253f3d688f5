// The moves of a walk.
ghost use Rattle.std.specs.Prelude.{◌≡◌, ◌+◌, ◌≤◌, [], ◌∷◌, ◌≢◌};
ghost use Rattle.std.specs.Iterator.{YieldsFirst, item_count};
ghost use Rattle.polar.specs.Walks.{current, remaining, Begun, WalkMade, Moved, ReadingOrder};

use crate::frame::{Frame, Node};
use crate::plan::check_length;
use crate::refusal::Refusal;
use crate::walk::{LEVELS, Walk};

impl Walk {
    // A walk that stands on the root of the tree of `len` symbols.
    pub fn new(len: usize) -> Result<Walk, Refusal>
        ensures { WalkMade len result }
    {
        check_length(len)?;
        Ok(Walk::at_root(len))
    }

    // The same for a length that is known to be right.
    pub(crate) fn at_root(len: usize) -> Walk
        requires some { 1 ≤ len }
        requires short { len ≤ 4096 }
        ensures { Begun len result }
    {
        Walk {
            frames: [Frame::new(len, 0); LEVELS],
            depth: 0,
        }
    }

    // The node that the walk stands on.
    pub fn node(&self) -> Node
        ensures value { result ≡ current self.now }
        ensures few { result.turns ≤ 12 }
        ensures within { result.first + result.len ≤ 4096 }
    {
        let frame = self.frames[self.depth];
        Node {
            len: frame.len,
            first: frame.first,
            turns: self.turns(),
        }
    }

    // Moves to the next node in reading order and answers it; after the last leaf it answers none and stays.
    // Over a whole run the k-th answer is the k-th node in reading order.
    #[tactic(auto, using(crate::proofs::Runs::reads_in_order))]
    pub fn advance(&mut self) -> Option<Node>
        ensures moved { Moved self.old result self.new }
        ensures order { ReadingOrder }
    {
        if !self.has_next() {
            return None;
        }
        self.enter_next();
        Some(self.node())
    }

    // Steps until the next node is entered.
    fn enter_next(&mut self)
        requires { remaining self.old ≢ [] }
        ensures { remaining self.old ≡ current self.new ∷ remaining self.new }
    {
        while !self.step() {}
    }
}

// A walk's items are the nodes that it has yet to enter, in reading order.
impl Iterator for Walk {
    type Item = Node;

    ghost next_gives = { YieldsFirst remaining };

    ghost remaining = { item_count remaining };

    fn next(&mut self) -> Option<Node> {
        self.advance()
    }
}
