// What a walk keeps of the nodes on the way to the one it stands on.
ghost use Rattle.std.specs.Prelude.{◌≡◌, ℕ, ◌≤◌};
ghost use Rattle.polar.specs.Preorder.{fresh, kind_of, one_more, turning, Unfinished, RightAhead};

// A node of a block's tree: its length, the place of its first symbol, and its turns, the right branches between the root and it.
#[derive(Clone, Copy, PartialEq, Eq, Debug)]
pub struct Node {
    pub len: usize,
    pub first: usize,
    pub turns: usize,
}

// Which children of a node are finished.
#[derive(Clone, Copy, PartialEq, Eq, Debug)]
pub enum Done {
    Neither,
    Left,
    Both,
}

#[derive(Clone, Copy, PartialEq, Eq)]
pub(crate) enum Kind {
    Leaf,
    Inner,
}

// The record of one depth.
#[derive(Clone, Copy)]
pub struct Frame {
    pub len: usize,
    pub first: usize,
    pub done: Done,
}

impl Frame {
    // The record of a node that is entered.
    pub(crate) fn new(len: usize, first: usize) -> Frame
        ensures { result ≡ fresh len first }
    {
        Frame {
            len,
            first,
            done: Done::Neither,
        }
    }

    pub(crate) fn kind(&self) -> Kind
        ensures { result ≡ kind_of self.now.len }
    {
        if self.len < 2 {
            Kind::Leaf
        } else {
            Kind::Inner
        }
    }

    // The turns that a walk below this node takes here: one where its left child is finished, which puts the walk into the right one.
    pub(crate) fn turn(&self) -> usize
        ensures value { result ≡ turning self.now }
        ensures few { result ≤ 1 }
    {
        match self.done {
            Done::Left => 1,
            Done::Neither | Done::Both => 0,
        }
    }

    // Whether a node is ahead under the frame's own, where a walk stands on it.
    pub(crate) fn unfinished(&self) -> bool
        ensures { Unfinished self.now result }
    {
        self.kind() == Kind::Inner && self.done != Done::Both
    }

    // Whether the right child is still ahead of a walk that is inside a child.
    pub(crate) fn right_ahead(&self) -> bool
        ensures { RightAhead self.now result }
    {
        self.kind() == Kind::Inner && self.done == Done::Neither
    }

    // Notes that the child that the walk was in is finished.
    pub(crate) fn finish_child(&mut self)
        ensures { self.new ≡ one_more self.old }
    {
        self.done = match self.done {
            Done::Neither => Done::Left,
            Done::Left | Done::Both => Done::Both,
        };
    }
}
