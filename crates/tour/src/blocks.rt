// The steps of the tour that show plans, walks and codewords.
use crate::show::Bits;
use polar::code::{encode, extract};
use polar::frame::Node;
use polar::labels::{transform, untransform};
use polar::plan::{MAX_LENGTH, Plan};
use polar::refusal::Refusal;
use polar::walk::Walk;

// Fills the plan, walks its tree, encodes the data and takes them out again.
pub(crate) fn show_block(
    rt: &HostRuntime,
    plan: &mut Plan,
    marks: &[u8],
    data: &[u8],
) -> anyhow::Result<()> {
    show(rt, "plan", plan.fill(marks.len(), marks))?;
    println!(rt; "  marks     {}", Bits(plan.marks()))?;
    let (length, active, weight) = (plan.length(), plan.active(), plan.weight());
    println!(rt; "  length {length}, active {active}, weight {weight}")?;
    show_walk(rt, plan)?;
    show_codeword(rt, plan, data)
}

// Prints a refusal, should there be one.
fn show<T: Drop>(rt: &HostRuntime, step: &str, answer: Result<T, Refusal>) -> anyhow::Result<()> {
    if let Err(refusal) = answer {
        println!(rt; "  {step}: {refusal}")?;
    }
    Ok(())
}

// Every node in reading order, with the weights of the leaves.
fn show_walk(rt: &HostRuntime, plan: &Plan) -> anyhow::Result<()> {
    let walk = Walk::new(plan.length())?;
    show_node(rt, plan.marks(), walk.node())?;
    for node in walk {
        show_node(rt, plan.marks(), node)?;
    }
    Ok(())
}

fn show_node(rt: &HostRuntime, marks: &[bool], node: Node) -> anyhow::Result<()> {
    let Node { len, first, turns } = node;
    if len > 1 {
        println!(rt; "  node of {len} from symbol {first}, turns {turns}")?;
        return Ok(());
    }
    let weight = 1u32.checked_shl(u32::try_from(turns)?).unwrap_or(0);
    let mark = match marks.get(first) {
        Some(true) => "active",
        _ => "frozen",
    };
    println!(rt; "    leaf {first}, turns {turns}, weight {weight}, {mark}")?;
    Ok(())
}

fn show_codeword(rt: &HostRuntime, plan: &Plan, data: &[u8]) -> anyhow::Result<()> {
    let mut word = [0u8; MAX_LENGTH];
    let mut back = [0u8; MAX_LENGTH];
    println!(rt; "  data      {}", Bits(data))?;
    match encode(plan, data, &mut word) {
        Ok(n) => println!(rt; "  codeword  {}", Bits(&word[0..n]))?,
        Err(refusal) => println!(rt; "  {refusal}")?,
    }
    match extract(plan, &word[0..plan.length()], &mut back) {
        Ok(k) => println!(rt; "  taken out {}", Bits(&back[0..k]))?,
        Err(refusal) => println!(rt; "  {refusal}")?,
    }
    Ok(())
}

// Leaves labelled 0 1 0 0 1 1 at length 6.
pub(crate) fn show_leaves(rt: &HostRuntime) -> anyhow::Result<()> {
    let mut labels = [false, true, false, false, true, true];
    println!(rt; "  leaves    {}", Bits(&labels))?;
    transform(&mut labels);
    println!(rt; "  root      {}", Bits(&labels))?;
    untransform(&mut labels);
    println!(rt; "  and back  {}", Bits(&labels))?;
    Ok(())
}

pub(crate) fn show_refusals(rt: &HostRuntime, plan: &mut Plan) -> anyhow::Result<()> {
    let mut out = [0u8; 5];
    show(rt, "length 0", plan.fill(0, &[]))?;
    show(rt, "length 4097", plan.fill(4097, &[1]))?;
    show(rt, "marks all frozen", plan.fill(3, &[0, 0, 0]))?;
    show(rt, "a walk of length 0", Walk::new(0))?;
    show(rt, "one datum for two leaves", encode(plan, &[1], &mut out))?;
    show(
        rt,
        "room for 5 of 6 symbols",
        encode(plan, &[1, 1], &mut out),
    )?;
    show(
        rt,
        "a codeword bit 2",
        extract(plan, &[0, 1, 1, 0, 1, 2], &mut out),
    )?;
    println!(rt; "  still     {}", Bits(plan.marks()))?;
    Ok(())
}
