// The bench program: a stored capture on standard input gives its report on standard output, or the line of its refusal.
#![tactic(auto)]

use reports::bench::Bench;
use std::io::{Read, Write};

// No more bytes than these are looked at. The longest stored capture has 12,293.
const MOST_INPUT: u64 = 16_384;

fn main(rt: HostRuntime) -> anyhow::Result<()> {
    let mut input = Vec::new(rt.alloc());
    rt.stdin().take(MOST_INPUT).read_to_end(&mut input)?;
    let mut bench = Bench::new(rt.alloc())?;
    bench.run(input.as_slice());
    rt.stdout().write_all(bench.text())?;
    Ok(())
}
