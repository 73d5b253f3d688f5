// Rows written from the items of an iterator.
ghost use Rattle.std.specs.Prelude.{◌≡◌, ◌≤◌, ◌++◌, length, drop};
ghost use Rattle.std.specs.Iterator.{IsFinite};
ghost use Rattle.std.specs.Iterator.Runs.{EachRunFrom, WholeRun};

use polar::rows::{Items, write_items};

// Writes the items in order into the front of `out`, whose tail stays, and answers how many they are. (A literal of `Items` is proved
// where the iterator's type is a parameter, and not where that type holds a closure.)
pub(crate) fn write_front<T: Copy, I: Iterator<Item = T> + Drop>(out: &mut [T], items: I) -> usize
    requires can { I.can_next items }
    requires ends { IsFinite (I.remaining items) }
    requires room { EachRunFrom I.next_gives items (λ p. p.len ≤ length out.old) }
    ensures runs { WholeRun I.next_gives items (λ p. (result ≡ p.len) × (out.new ≡ p.items ++ drop p.len out.old)) }
{
    let most = out.len();
    write_items(out, Items { chain: items, most }).unwrap()
}
