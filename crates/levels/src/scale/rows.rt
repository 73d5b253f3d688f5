// Rows of counts and of levels.
ghost use Rattle.std.specs.Prelude.{◌≡◌, ◌≤◌, ◌++◌, length, drop, Ok};
ghost use Rattle.std.specs.Iterator.{IsFinite};
ghost use Rattle.std.specs.Iterator.Runs.{EachRunFrom, WholeRun};
ghost use Rattle.levels.specs.Level.{largest_count, exponent_of};
ghost use Rattle.levels.specs.Rows.{all_are_numbers, AllWithin, RowExported, RowImported, RowsReturn};

use super::Scale;
use polar::refusal::Refusal;
use polar::rows::{Items, write_items};

impl Scale {
    // Writes the levels of the counts and answers how many; what follows them stays. A short output
    // is refused (`Output`), untouched.
    pub fn export(&self, counts: &[i16], out: &mut [f32]) -> Result<usize, Refusal>
        ensures written { RowExported (exponent_of self.now.step) counts.now out.old out.new result }
        ensures returns { RowsReturn largest_count (exponent_of self.now.step) }
    {
        if out.len() < counts.len() {
            return Err(Refusal::Output);
        }
        write_front(
            out,
            counts.iter().copied().map(|count| self.level_of(count)),
        );
        Ok(counts.len())
    }

    // Replaces the counts by those of the levels. Refused, with nothing changed, where there are not
    // as many levels as counts (`ItemCount`), and then where a level is not a number (`Range`).
    pub fn import(&self, levels: &[f32], counts: &mut [i16]) -> Result<(), Refusal>
        ensures read { RowImported largest_count (exponent_of self.now.step) levels.now counts.old counts.new result }
        ensures within { result ≡ Ok tt → AllWithin largest_count counts.new }
    {
        if levels.len() != counts.len() {
            return Err(Refusal::ItemCount);
        }
        if !all_numbers(levels) {
            return Err(Refusal::Range);
        }
        let nearest = levels
            .iter()
            .copied()
            .map(|level| self.nearest_count(level));
        write_front(counts, nearest);
        Ok(())
    }
}

// Whether each level is a number.
pub fn all_numbers(levels: &[f32]) -> bool
    ensures { result ≡ all_are_numbers levels.now }
{
    levels.iter().all(|level| !level.is_nan())
}

// Writes the items in order into the front of `out`, whose tail stays, and answers how many they are. (A literal of `Items` is proved
// where the iterator's type is a parameter, and not where that type holds a closure.)
fn write_front<T: Copy, I: Iterator<Item = T> + Drop>(out: &mut [T], items: I) -> usize
    requires can { I.can_next items }
    requires ends { IsFinite (I.remaining items) }
    requires room { EachRunFrom I.next_gives items (λ p. p.len ≤ length out.old) }
    ensures runs { WholeRun I.next_gives items (λ p. (result ≡ p.len) × (out.new ≡ p.items ++ drop p.len out.old)) }
{
    let most = out.len();
    write_items(out, Items { chain: items, most }).unwrap()
}
