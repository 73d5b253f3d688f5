ghost use Rattle.std.specs.Prelude.{◌≡◌, ◌-◌, ◌/◌, ◌<◌, ◌≤◌};

// The lengths of the left and the right child of a node of length `len`: the left one is the longer by one where `len` is odd.
// A leaf has no children and answers 0 and 0, which are the lengths of its two parts and not the lack of an answer.
pub fn children(len: usize) -> (usize, usize)
    ensures leaf { len < 2 → result.0 ≡ 0 }
    ensures left { 2 ≤ len → result.0 ≡ len - len / 2 }
    ensures right { result.1 ≡ len / 2 }
{
    if len < 2 {
        return (0, 0);
    }
    let right = len / 2;
    (len - right, right)
}
