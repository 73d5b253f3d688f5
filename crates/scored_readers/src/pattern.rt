// Which leaves of a node are active.
#[derive(Clone, Copy, PartialEq, Eq, Debug)]
pub enum Pattern {
    // None.
    Frozen,
    // All.
    Full,
    // All but the first.
    Check,
    // One.
    Single,
    Other,
}
