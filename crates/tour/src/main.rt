// One task from beginning to end, printed step by step: plans and codewords, soft values and readers, and a capture
// that is edited, exported, imported, saved, loaded and read.
#![tactic(auto)]

mod assuring;
mod blocks;
mod capturing;
mod reading;
mod show;

use blocks::{show_block, show_leaves, show_refusals};
use capturing::show_capture;
use polar::plan::Plan;
use reading::show_readings;

fn main(rt: HostRuntime) -> anyhow::Result<()> {
    run(&rt)
}

fn run(rt: &HostRuntime) -> anyhow::Result<()> {
    let mut plan = Plan::new(rt.alloc())?;
    show_codes(rt, &mut plan)?;
    show_readings(rt, &plan)?;
    show_capture(rt, &plan)
}

fn show_codes(rt: &HostRuntime, plan: &mut Plan) -> anyhow::Result<()> {
    println!(rt; "A block of 9 symbols, of which leaf 4 alone carries a datum")?;
    show_block(rt, plan, &[0, 0, 0, 0, 1, 0, 0, 0, 0], &[1])?;
    println!(rt; "The same length with leaf 8 alone, the heaviest")?;
    show_block(rt, plan, &[0, 0, 0, 0, 0, 0, 0, 0, 1], &[1])?;
    println!(rt; "A block of 6 symbols with two data, on leaves 4 and 5")?;
    show_block(rt, plan, &[0, 0, 0, 0, 1, 1], &[1, 1])?;
    println!(rt; "From the labels of the leaves to the label of the root, and back")?;
    show_leaves(rt)?;
    println!(rt; "Calls that are refused, and change nothing")?;
    show_refusals(rt, plan)
}
