// The shortcut layer, which reads nodes of four patterns at once.
ghost use Rattle.std.specs.Prelude.{◌≡◌, ◌<◌, ◌≤◌, T, map, length};
ghost use Rattle.readers.specs.Readings.{AllFit, Posed};
ghost use Rattle.scored_readers.specs.ShortcutReading.{pattern_of, single_answer, score_width, weakest, even_answer, shortcut_reading};
ghost use Rattle.scored_readers.specs.ShortcutRules.{shortcut_rules};

use crate::exhaustive::score_word;
use crate::pattern::Pattern;
use crate::writing::write_front;
use polar::bits::count_ones;
use polar::labels::transform;
use readers::question::Question;
use readers::reader::Reader;
use readers::split::add_places;
use soft::kind::{Scored, Soft};

// Reads nodes with no active leaf, with all, with all but the first and with just one; other nodes go below.
#[derive(Clone, Copy)]
pub struct Shortcut<R> {
    pub below: R,
}

impl<K: Scored, R: Reader<K>> Reader<K> for Shortcut<R> {
    ghost reading = { λ s. shortcut_reading K.Soft.kind K.Scored.scoring (R.Reader.reading s.below) };

    // The shortcut keeps the rules of a reader, since the reader below does and scores are fair.
    ghost rules = { λ shortcut. shortcut_rules K.Soft.kind K.Scored.scoring K.Scored.fair _ (R.Reader.rules shortcut.below) };

    fn takes(&self, marks: &[bool]) -> bool {
        match classify(marks) {
            Pattern::Other => self.below.takes(marks),
            _ => true,
        }
    }

    fn soft_places(&self, len: usize) -> usize {
        self.below.soft_places(len)
    }

    fn bit_places(&self, len: usize) -> usize {
        add_places(self.below.bit_places(len), len)
    }

    fn read(
        &self,
        question: &Question<'_, K>,
        soft: &mut [K],
        bits: &mut [bool],
        out: &mut [bool],
    ) {
        match classify(question.marks) {
            Pattern::Frozen => out.fill(false),
            Pattern::Full => decide_all(question.values, out),
            Pattern::Check => decide_even(question, out),
            Pattern::Single => weigh_single(question, out),
            Pattern::Other => self.below.read(question, soft, bits, out),
        }
    }
}

fn classify(marks: &[bool]) -> Pattern
    ensures { result ≡ pattern_of marks.now }
{
    let active = count_ones(marks);
    if active == 0 {
        Pattern::Frozen
    } else if active == marks.len() {
        Pattern::Full
    } else if !marks[0] && marks.len() > 1 && active + 1 == marks.len() {
        Pattern::Check
    } else if active == 1 {
        Pattern::Single
    } else {
        Pattern::Other
    }
}

// Decides each symbol.
fn decide_all<K: Soft>(values: &[K], out: &mut [bool])
    requires { length out.old ≡ length values.now }
    ensures { out.new ≡ map K.Soft.kind.decided values.now }
{
    write_front(out, values.iter().copied().map(|v| v.decide()));
}

// Decides each symbol, and turns the weakest one if their sum is odd.
fn decide_even<K: Scored>(question: &Question<'_, K>, out: &mut [bool])
    requires { length out.old ≡ length question.now.values.now }
    ensures { out.new ≡ even_answer K.Soft.kind K.Scored.scoring question.now.turns question.now.values.now }
{
    decide_all(question.values, out);
    if count_ones(out) % 2 == 1 {
        let place = find_weakest(question);
        out[place] = !out[place];
    }
}

// The first place whose two scores lie closest.
fn find_weakest<K: Scored>(question: &Question<'_, K>) -> usize
    ensures value { result ≡ weakest K.Scored.scoring question.now.turns question.now.values.now }
    ensures within { result < length question.now.values.now }
{
    let turns = question.turns;
    let values = question.values;
    (0..values.len())
        .min_by_key(|i| width(values[*i], turns))
        .unwrap()
}

// How far apart a value's two scores lie.
fn width<K: Scored>(value: K, turns: u32) -> u32
    requires { (turns ≤ 12) × (T (K.Soft.kind.fitting value turns)) }
    ensures { result ≡ score_width K.Scored.scoring turns value }
{
    value.score(true, turns).abs_diff(value.score(false, turns))
}

// The label of the one active leaf if it scores more than the zero label, which it else is.
fn weigh_single<K: Scored>(question: &Question<'_, K>, out: &mut [bool])
    requires { length out.old ≡ length question.now.marks.now }
    ensures { out.new ≡ single_answer K.Scored.scoring question.now.marks.now question.now.turns question.now.values.now }
{
    out.fill(false);
    let zero_score = score_word(question, out);
    out.copy_from_slice(question.marks);
    transform(out);
    if score_word(question, out) <= zero_score {
        out.fill(false);
    }
}
