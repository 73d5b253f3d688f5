// A kept capture read back and compared with a fresh block, and the least that could mislead a reader.
use crate::reading::room;
use crate::show::{Bits, Spaced};
use analyser::comparing::compare_readings;
use analyser::reading::read_counts;
use analyser::worst::worst_pair;
use captures::capture::Capture;
use polar::plan::Plan;
use readers::leaf::Leaf;
use readers::reader::Reader;
use readers::split::Split;
use scored_readers::exhaustive::Exhaustive;
use scored_readers::shortcut::Shortcut;
use soft::count::Count;

// The same data as they came in again today.
const FRESH: [Count; 6] = [
    Count(90),
    Count(-120),
    Count(-33),
    Count(101),
    Count(-77),
    Count(-127),
];

pub(crate) fn show_assurance(rt: &HostRuntime, capture: &Capture) -> anyhow::Result<()> {
    let exhaustive = Exhaustive::new(4)?;
    let pile = Split {
        below: Shortcut { below: exhaustive },
    };
    let leaves = Split { below: Leaf };
    let (soft_need, bits_need) = room::<Count, _>(&pile, capture.plan());
    let mut soft = Vec::new(rt.alloc());
    soft.resize(soft_need, Count(0))?;
    let mut counts = Vec::new(rt.alloc());
    counts.resize(soft_need, Count(0))?;
    let mut bits = Vec::new(rt.alloc());
    bits.resize(bits_need, false)?;
    show_kept(rt, &pile, capture, &mut counts, &mut bits)?;
    match compare_readings(
        &leaves,
        &FRESH,
        &mut soft,
        &pile,
        capture,
        &mut counts,
        &mut bits,
    ) {
        Ok(true) => println!(rt; "  a fresh block has the same data")?,
        Ok(false) => println!(rt; "  a fresh block has other data")?,
        Err(refusal) => println!(rt; "  {refusal}")?,
    }
    show_limit(rt, capture.plan())
}

fn show_kept<R: Reader<Count>>(
    rt: &HostRuntime,
    pile: &R,
    capture: &Capture,
    counts: &mut [Count],
    bits: &mut [bool],
) -> anyhow::Result<()> {
    let mut data = [0u8; 6];
    match read_counts(pile, capture, counts, bits, &mut data) {
        Ok(k) => println!(rt; "  read as   {}", Bits(data.get(..k).unwrap_or(&[])))?,
        Err(refusal) => println!(rt; "  {refusal}")?,
    }
    Ok(())
}

// Erasures charged 127 × the weight in all that leave the captures of two data words equal.
fn show_limit(rt: &HostRuntime, plan: &Plan) -> anyhow::Result<()> {
    let mut one = [0u8; 2];
    let mut other = [0u8; 2];
    let mut places = [0usize; 4];
    match worst_pair(plan, &mut one, &mut other, &mut places) {
        Ok(n) => {
            let charge = n.saturating_mul(127);
            println!(rt; "No figure above {charge} could be promised")?;
            println!(rt;
                "  {} and {} are the same capture",
                Bits(&one),
                Bits(&other)
            )?;
            println!(rt; "  once places {} are erased", Spaced(&places))?;
        }
        Err(refusal) => println!(rt; "  {refusal}")?,
    }
    Ok(())
}
