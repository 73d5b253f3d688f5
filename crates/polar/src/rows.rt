// Rows, which hold one value for each symbol of a block or one for each datum, written from the items of an iterator.
ghost use Rattle.std.specs.Prelude.{◌≡◌, ◌≤◌, true, ◌++◌, length, drop, nat_lt, None};
ghost use Rattle.std.specs.Iterator.{IsFinite};
ghost use Rattle.std.specs.Iterator.Runs.{EachRunFrom, WholeRun};
ghost use Rattle.polar.specs.declared.refusal.Refusal.TheVariants.{Output};
ghost use Rattle.polar.specs.Refusals.{Outcome, refused_if};

use crate::refusal::Refusal;
use std::marker::Model;

// An iterator that may be run, ends, and gives at most `most` items. (Who makes one proves that, so a function that takes one asks nothing.)
#[derive(Drop)]
pub struct Items<I: Iterator> {
    pub chain: I,
    pub most: usize,
}

// Contracts see the iterator and that number.
impl<I: Iterator> Model for Items<I> {
    ghost use Rattle.std.specs.Prelude.{ℕ, ◌≤◌};
    ghost use Rattle.std.specs.Coded.{coded×, coded_ℕ};
    ghost use Rattle.std.specs.Iterator.{IsFinite};
    ghost use Rattle.std.specs.Iterator.Runs.{EachRunFrom};

    ghost Value = { I × ℕ };

    ghost coded = { coded× I.code coded_ℕ };

    ghost view = { λ s. (s.chain, s.most) };

    ghost invariant = { λ s. I.can_next s.chain × (IsFinite (I.remaining s.chain) × EachRunFrom I.next_gives s.chain (λ p. p.len ≤ s.most)) };
}

// Writes the items in order into the front of `out`, whose tail stays, and answers how many they are. A row that is shorter than `most` is
// refused (`Output`), untouched.
pub fn write_items<T: Copy, I: Iterator<Item = T> + Drop>(
    out: &mut [T],
    items: Items<I>,
) -> Result<usize, Refusal>
    ensures { Outcome (refused_if (nat_lt (length out.old) items.1) Output None) result (λ n. WholeRun I.next_gives items.0 (λ p. (n ≡ p.len) × (out.new ≡ p.items ++ drop p.len out.old))) (out.new ≡ out.old) }
{
    if out.len() < items.most {
        return Err(Refusal::Output);
    }
    Ok(write_front(out, items.chain))
}

// Writes the items in order into the front of `out`, whose tail stays, and answers how many they are.
// (The one loop that counts its place, on behalf of all rows: the proof knows nothing of what an adapter of `iter_mut` wrote.)
pub(crate) fn write_front<T: Copy, I: Iterator<Item = T> + Drop>(
    out: &mut [T],
    mut items: I,
) -> usize
    requires can { I.can_next items }
    requires ends { IsFinite (I.remaining items) }
    requires room { EachRunFrom I.next_gives items (λ p. p.len ≤ length out.old) }
    ensures runs { WholeRun I.next_gives items (λ p. (result ≡ p.len) × (out.new ≡ p.items ++ drop p.len out.old)) }
{
    let mut next = 0;
    while let Some(x) = items.next() {
        out[next] = x;
        next += 1;
    }
    next
}

// Replaces a whole row by as many items.
pub(crate) fn write_all<T: Copy, I: Iterator<Item = T> + Drop>(out: &mut [T], items: I)
    requires can { I.can_next items }
    requires ends { IsFinite (I.remaining items) }
    requires room { EachRunFrom I.next_gives items (λ p. p.len ≤ length out.old) }
    requires full { EachRunFrom I.next_gives items (λ p. p.whole ≡ true → p.len ≡ length out.old) }
    ensures runs { WholeRun I.next_gives items (λ p. (p.len ≡ length out.new) × (out.new ≡ p.items)) }
{
    write_front(out, items);
}
