// A walk over a block's tree: a node, then all under its left child, then all under its right child.
ghost use Rattle.std.specs.Prelude.{◌≡◌, ℕ, ◌+◌, ◌<◌, ◌≤◌, [], length, take, ◌≢◌, slice_set};
ghost use Rattle.polar.specs.Preorder.{Fitting, frame_at, ahead, turned, fresh, one_more, More, Stepped};

use crate::frame::{Done, Frame, Kind};
use crate::tree::children;

pub mod moves;

// The depths of the longest block's tree.
const LEVELS: usize = 13;

// A walk stands on one node. It keeps a frame for each node on the way from the root to that one, which lies at `depth`.
// An array with its depth, and no Vec: a walk takes no memory but its own, with one frame for each of the at most 13 depths.
#[derive(Drop)]
pub struct Walk {
    frames: [Frame; LEVELS],
    depth: usize,
    ghost sized: { length frames ≡ 13 },
    ghost shallow: { depth < 13 },
    ghost fitting: { (k : ℕ) → k ≤ depth → Fitting k (frame_at frames k) },
}

impl Walk {
    // Enters a child of the node at hand.
    fn enter(&mut self, len: usize, first: usize)
        requires shallow { self.old.depth < 12 }
        requires fitting { Fitting (self.old.depth + 1) (fresh len first) }
        ensures depth { self.new.depth ≡ self.old.depth + 1 }
        ensures frames { self.new.frames ≡ slice_set self.old.frames (self.old.depth + 1) (fresh len first) }
    {
        self.depth += 1;
        self.frames[self.depth] = Frame::new(len, first);
    }

    // Leaves a finished node for its parent, which has one child more finished.
    fn leave(&mut self)
        requires { 0 < self.old.depth }
        ensures depth { self.new.depth + 1 ≡ self.old.depth }
        ensures frames { self.new.frames ≡ slice_set self.old.frames self.new.depth (one_more (frame_at self.old.frames self.new.depth)) }
    {
        self.depth -= 1;
        let frame = &mut self.frames[self.depth];
        frame.finish_child();
    }

    // One step on the way to the next node: into a child that is not finished, or out of a finished node.
    // Answers whether a node was entered.
    fn step(&mut self) -> bool
        requires { ahead self.old.frames self.old.depth ≢ [] }
        ensures { Stepped self.old.frames self.old.depth self.new.frames self.new.depth result }
    {
        let frame = self.frames[self.depth];
        let (left, right) = children(frame.len);
        match (frame.kind(), frame.done) {
            (Kind::Inner, Done::Neither) => {
                self.enter(left, frame.first);
                true
            }
            (Kind::Inner, Done::Left) => {
                self.enter(right, frame.first + left);
                true
            }
            (Kind::Inner, Done::Both) => {
                self.leave();
                false
            }
            (Kind::Leaf, _) => {
                self.leave();
                false
            }
        }
    }

    // The turns of the node that the walk stands on, counted from the frames above it.
    fn turns(&self) -> usize
        ensures value { result ≡ turned (take self.now.depth self.now.frames) }
        ensures few { result ≤ self.now.depth }
    {
        self.frames[..self.depth].iter().map(Frame::turn).sum()
    }

    // Whether a node is ahead.
    fn has_next(&self) -> bool
        ensures { More result (ahead self.now.frames self.now.depth) }
    {
        self.frames[self.depth].unfinished()
            || self.frames[..self.depth].iter().any(Frame::right_ahead)
    }
}
