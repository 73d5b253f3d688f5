// What is done to one place of a capture.

// An edit of one place, each charged by how far it can take the capture from the sender's word.
#[derive(Clone, Copy, PartialEq, Debug)]
pub enum Edit {
    // Nothing is known of the symbol any more: the count becomes 0.
    Erase,
    // The count is written.
    Count(i16),
    // The level is converted by the rule of importing, and its count is written.
    Level(f32),
    // The count moves this far towards 0, and stops there.
    Weaken(u16),
}
