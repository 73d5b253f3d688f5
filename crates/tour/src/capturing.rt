// A capture of the 6-symbol block: made, edited, reopened for a year and read.
use crate::assuring::show_assurance;
use crate::reading::WORD;
use crate::show::{Bits, Hex, Spaced};
use captures::capture::Capture;
use captures::edit::Edit;
use polar::plan::Plan;
use polar::refusal::Refusal;

// The working days of a year.
const DAYS: u32 = 250;

pub(crate) fn show_capture(rt: &HostRuntime, plan: &Plan) -> anyhow::Result<()> {
    let mut capture = Capture::new(rt.alloc())?;
    println!(rt; "A capture of the data 11 with exponent 3")?;
    if let Err(refusal) = capture.make(plan, 3, &[1, 1]) {
        println!(rt; "  {refusal}")?;
    }
    show_state(rt, &capture)?;
    edit(rt, &mut capture, "erase place 1", 1, Edit::Erase)?;
    edit(rt, &mut capture, "erase place 2", 2, Edit::Erase)?;
    edit(
        rt,
        &mut capture,
        "weaken place 4 by 127",
        4,
        Edit::Weaken(127),
    )?;
    edit(
        rt,
        &mut capture,
        "weaken place 0 by 128",
        0,
        Edit::Weaken(128),
    )?;
    edit(
        rt,
        &mut capture,
        "write level 100 to place 0",
        0,
        Edit::Level(100.0),
    )?;
    reopen(rt, &mut capture)
}

// What the capture holds, and how far it falls short of the sender's word.
fn show_state(rt: &HostRuntime, capture: &Capture) -> anyhow::Result<()> {
    println!(rt; "  counts    {}", Spaced(capture.counts()))?;
    match capture.shortfall(&WORD) {
        Ok(sum) => println!(rt; "    shortfall {sum} from {}", Bits(&WORD))?,
        Err(refusal) => println!(rt; "    {refusal}")?,
    }
    match capture.first_against(&WORD) {
        Ok(Some(place)) => println!(rt; "    place {place} speaks against it")?,
        Ok(None) => println!(rt; "    no place speaks against it")?,
        Err(refusal) => println!(rt; "    {refusal}")?,
    }
    Ok(())
}

fn edit(
    rt: &HostRuntime,
    capture: &mut Capture,
    name: &str,
    place: usize,
    edit: Edit,
) -> anyhow::Result<()> {
    let charge = capture.charge(edit);
    match capture.edit(place, edit) {
        Ok(()) => println!(rt; "  {name}, charged {charge}")?,
        Err(refusal) => {
            println!(rt; "  {name}: {refusal}")?;
            return Ok(());
        }
    }
    show_state(rt, capture)
}

// A year of exporting, importing, saving and loading, after which no count has moved.
fn reopen(rt: &HostRuntime, capture: &mut Capture) -> anyhow::Result<()> {
    let mut levels = [0.0f32; 6];
    let mut bytes = [0u8; 20];
    let done = keep_for_a_year(capture, &mut levels, &mut bytes);
    println!(rt; "  levels    {}", Spaced(&levels))?;
    println!(rt; "  bytes     {}", Spaced(&bytes.map(Hex)[0..14]))?;
    println!(rt; "After {done} days of export, import, save and load")?;
    show_state(rt, capture)?;
    show_assurance(rt, capture)?;
    show_damage(rt, capture)
}

// How many days every call was accepted.
fn keep_for_a_year(capture: &mut Capture, levels: &mut [f32], bytes: &mut [u8]) -> u32 {
    let mut done = 0u32;
    for _ in 0..DAYS {
        done = done.saturating_add(u32::from(reopen_once(capture, levels, bytes).is_ok()));
    }
    done
}

// A day: the levels out and in, and the bytes out and in.
fn reopen_once(capture: &mut Capture, levels: &mut [f32], bytes: &mut [u8]) -> Result<(), Refusal> {
    capture.export(levels)?;
    capture.import(levels)?;
    let length = capture.save(bytes)?;
    capture.load(bytes.get(0..length).unwrap_or(&[]))
}

// A damaged file is refused at the place of the damage, and the capture stays.
fn show_damage(rt: &HostRuntime, capture: &mut Capture) -> anyhow::Result<()> {
    if let Err(refusal) = capture.load(&[0x01, 0x00]) {
        println!(rt; "A damaged file, 01 00: {refusal}")?;
    }
    println!(rt; "  still     {}", Spaced(capture.counts()))?;
    Ok(())
}
