// The label of a tree's root from the labels of its leaves, and back, in place and without memory of its own.
ghost use Rattle.std.specs.Prelude.{◌≡◌, ◌≤◌, Bool, false, cond, List, length, drop, slice_index_or};
ghost use Rattle.polar.specs.Shape.{balanced};
ghost use Rattle.polar.specs.Words.{plus, parity};
ghost use Rattle.polar.specs.Labels.{label, unlabel};
ghost use Rattle.polar.specs.LabelLaws.{Labelled};

use crate::tree::children;

// Adds the right part of a label, which begins at `mid`, to its left part, place by place.
// The last bit of a longer left part passes through.
// (By place, since the two parts may overlap where `mid` is small.)
pub fn add_right(bits: &mut [bool], mid: usize)
    ensures { bits.new ≡ plus bits.old (drop mid bits.old) }
{
    for i in 0..bits.len().saturating_sub(mid) {
        bits[i] ^= bits[mid + i];
    }
}

// Turns the labels of a tree's leaves, in order, into the label of its root, in place.
pub fn transform(bits: &mut [bool])
    ensures value { bits.new ≡ label (balanced (length bits.old)) bits.old }
    ensures labelled { 1 ≤ length bits.old → Labelled (length bits.old) bits.old bits.new }
    ensures alone { (other : List Bool) → Labelled (length bits.old) bits.old other → other ≡ bits.new }
    ensures undone { unlabel (balanced (length bits.old)) bits.new ≡ bits.old }
    ensures parity { parity bits.new ≡ slice_index_or bits.old 0 false }
{
    pass::<false>(bits);
}

// Turns the label of a tree's root into the labels of its leaves, in order, in place.
pub fn untransform(bits: &mut [bool])
    ensures value { bits.new ≡ unlabel (balanced (length bits.old)) bits.old }
    ensures labelled { 1 ≤ length bits.old → Labelled (length bits.old) bits.new bits.old }
    ensures undone { label (balanced (length bits.old)) bits.new ≡ bits.old }
    ensures parity { parity bits.old ≡ slice_index_or bits.new 0 false }
{
    pass::<true>(bits);
}

// The transform, or the transform undone where `INVERSE`: the right part is added to the left one after the children's labels
// are worked out, or before their leaves are.
fn pass<const INVERSE: bool>(bits: &mut [bool])
    ensures { bits.new ≡ cond INVERSE (unlabel (balanced (length bits.old)) bits.old) (label (balanced (length bits.old)) bits.old) }
{
    if bits.len() <= 8 {
        pass_eight(bits);
        return;
    }
    let (left, _) = children(bits.len());
    if INVERSE {
        add_right(bits, left);
    }
    pass::<INVERSE>(&mut bits[0..left]);
    pass::<INVERSE>(&mut bits[left..]);
    if !INVERSE {
        add_right(bits, left);
    }
}

// The same for up to eight leaves, where the transform undoes itself. It is done without recursion, which is where most of the
// time would go.
#[inline(always)]
fn pass_eight(bits: &mut [bool])
    requires { length bits.old ≤ 8 }
    ensures forth { bits.new ≡ label (balanced (length bits.old)) bits.old }
    ensures back { bits.new ≡ unlabel (balanced (length bits.old)) bits.old }
{
    if bits.len() <= 4 {
        pass_four(bits);
        return;
    }
    let (left, _) = children(bits.len());
    pass_four(&mut bits[0..left]);
    pass_four(&mut bits[left..]);
    add_right(bits, left);
}

// The same for up to four leaves, sum by sum.
#[tactic(auto, using(crate::proofs::InPlace::labelled_short, crate::proofs::SmallNodes::two_label, crate::proofs::SmallNodes::three_label, crate::proofs::SmallNodes::four_label))]
fn pass_four(bits: &mut [bool])
    requires { length bits.old ≤ 4 }
    ensures { bits.new ≡ label (balanced (length bits.old)) bits.old }
{
    match bits.len() {
        4 => {
            bits[0] ^= bits[1];
            bits[2] ^= bits[3];
            bits[0] ^= bits[2];
            bits[1] ^= bits[3];
        }
        3 => {
            bits[0] ^= bits[1];
            bits[0] ^= bits[2];
        }
        2 => bits[0] ^= bits[1],
        _ => {}
    }
}
