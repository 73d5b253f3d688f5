// Soft values of the 6-symbol block, read through piles of readers.
use crate::show::{Bits, Spaced};
use polar::plan::Plan;
use readers::leaf::Leaf;
use readers::lists::{read_list, shortfall};
use readers::reader::Reader;
use readers::split::Split;
use scored_readers::exhaustive::Exhaustive;
use scored_readers::shortcut::Shortcut;
use soft::count::Count;
use soft::erasure::Erasure;
use soft::kind::{Listed, Soft};

// The codeword of the data 11 on this plan.
pub(crate) const WORD: [u8; 6] = [0, 1, 1, 0, 1, 1];

pub(crate) fn show_readings(rt: &HostRuntime, plan: &Plan) -> anyhow::Result<()> {
    let limit = 127 * plan.weight();
    println!(rt; "The same block as counts, read by counts; sure below a shortfall of {limit}")?;
    show_counts(rt, plan, &[127, -127, -127, 127, -127, -127])?;
    show_counts(rt, plan, &[127, 0, 0, 127, 0, -127])?;
    show_counts(rt, plan, &[127, 127, 127, 127, -127, -127])?;
    println!(rt;
        "As erasures, three symbols of which are unknown; sure below {}",
        plan.weight()
    )?;
    let (zero, one, unknown) = (Erasure::Zero, Erasure::One, Erasure::Unknown);
    let values = [zero, unknown, unknown, zero, unknown, one];
    show_shortfall(rt, plan, &values)?;
    read_through(rt, "split over leaf", &Split { below: Leaf }, plan, &values)
}

// A block of counts through three piles.
fn show_counts(rt: &HostRuntime, plan: &Plan, counts: &[i16; 6]) -> anyhow::Result<()> {
    let values = counts.map(Count::from);
    println!(rt; "  counts    {}", Spaced(counts))?;
    show_shortfall(rt, plan, &values)?;
    let exhaustive = Exhaustive::new(4)?;
    read_through(rt, "split over leaf", &Split { below: Leaf }, plan, &values)?;
    read_through(
        rt,
        "split over exhaustive",
        &Split { below: exhaustive },
        plan,
        &values,
    )?;
    let shortcut = Shortcut { below: exhaustive };
    read_through(
        rt,
        "split over shortcut",
        &Split { below: shortcut },
        plan,
        &values,
    )
}

fn show_shortfall<K: Listed>(rt: &HostRuntime, plan: &Plan, values: &[K]) -> anyhow::Result<()> {
    match shortfall(plan, values, &WORD) {
        Ok(sum) => println!(rt; "    shortfall {sum} from {}", Bits(&WORD))?,
        Err(refusal) => println!(rt; "    {refusal}")?,
    }
    Ok(())
}

// The soft and bit places that a reading of a block asks for.
pub(crate) fn room<K: Soft, R: Reader<K>>(pile: &R, plan: &Plan) -> (usize, usize) {
    let len = plan.length();
    (
        pile.soft_places(len).saturating_add(len),
        pile.bit_places(len).saturating_add(len),
    )
}

// Reads the values through a pile, in buffers of the size that it tells.
fn read_through<K: Listed, R: Reader<K>>(
    rt: &HostRuntime,
    name: &str,
    pile: &R,
    plan: &Plan,
    values: &[K],
) -> anyhow::Result<()> {
    let [blank, ..] = values else {
        return Ok(());
    };
    let (soft_need, bits_need) = room(pile, plan);
    let mut soft = Vec::new(rt.alloc());
    soft.resize(soft_need, *blank)?;
    let mut bits = Vec::new(rt.alloc());
    bits.resize(bits_need, false)?;
    let mut data = [0u8; 6];
    match read_list(pile, plan, values, &mut soft, &mut bits, &mut data) {
        Ok(k) => println!(rt; "    {name}: {}", Bits(data.get(..k).unwrap_or(&[])))?,
        Err(refusal) => println!(rt; "    {name}: {refusal}")?,
    }
    Ok(())
}
