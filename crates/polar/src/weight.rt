// The smallest weight of an active leaf.
ghost use Rattle.std.specs.Prelude.{◌≡◌, ◌≤◌, length};
ghost use Rattle.polar.specs.Shape.{balanced};
ghost use Rattle.polar.specs.Marks.{weight};
ghost use Rattle.polar.specs.Lightest.{node_weight, some_weight, lesser_of, Within};

use crate::frame::Node;
use crate::walk::Walk;

// The smaller of two weights, each of which may be missing.
fn lighter(v: Option<usize>, w: Option<usize>) -> Option<usize>
    ensures { result ≡ lesser_of v w }
{
    if w.is_some_and(|w| v.is_none_or(|v| w < v)) {
        w
    } else {
        v
    }
}

// The weight of an active leaf, 2 to the right branches that lead to it; any other node has none.
fn leaf_weight(marks: &[bool], node: Node) -> Option<usize>
    requires { Within (length marks.now) node }
    ensures { result ≡ some_weight (node_weight marks.now node) }
{
    (node.len == 1 && marks[node.first]).then_some(1 << node.turns)
}

// The weight of the balanced tree with these marks: 2 to the fewest right branches that lead to an active leaf;
// none where no leaf is active. Found by a walk over all nodes.
pub(crate) fn least_weight(marks: &[bool]) -> Option<usize>
    requires some { 1 ≤ length marks.now }
    requires short { length marks.now ≤ 4096 }
    ensures { result ≡ some_weight (weight (balanced (length marks.now)) marks.now) }
{
    let walk = Walk::at_root(marks.len());
    let mut least = leaf_weight(marks, walk.node());
    for node in walk {
        least = lighter(least, leaf_weight(marks, node));
    }
    least
}
