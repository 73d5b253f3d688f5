// Plans, encoding and taking data out.
use polar::code::{encode, extract};
use polar::plan::Plan;
use polar::refusal::Refusal;
use std::test::Fail;

// The codeword of one datum 1 at a leaf of nine symbols.
pub(crate) fn nine(plan: &mut Plan, leaf: usize) -> Result<[u8; 9], Refusal> {
    let mut marks = [0u8; 9];
    if leaf < 9 {
        marks[leaf] = 1;
    }
    plan.fill(9, &marks)?;
    let mut word = [7u8; 9];
    encode(plan, &[1], &mut word)?;
    Ok(word)
}

#[test]
fn nine_symbols(rt: HostRuntime) -> Result<(), Fail> {
    let mut plan = Plan::new(rt.alloc())?;
    assert_eq!(rt; nine(&mut plan, 4), Ok([1, 1, 0, 1, 1, 0, 0, 0, 0]));
    assert_eq!(rt; plan.weight(), 4);
    assert_eq!(rt; nine(&mut plan, 8), Ok([1, 1, 1, 1, 0, 1, 1, 1, 1]));
    assert_eq!(rt; plan.weight(), 8);
    assert_eq!(rt; nine(&mut plan, 9), Err(Refusal::Marks));
    assert_eq!(rt; plan.weight(), 8);
    Ok(())
}

#[test]
fn six_symbols(rt: HostRuntime) -> Result<(), Fail> {
    let mut plan = Plan::new(rt.alloc())?;
    plan.fill(6, &[0, 0, 0, 0, 1, 1])?;
    assert_eq!(rt; (plan.length(), plan.active(), plan.weight()), (6, 2, 4));
    let mut word = [7u8; 8];
    assert_eq!(rt; encode(&plan, &[1, 1], &mut word), Ok(6));
    assert!(rt; word == [0, 1, 1, 0, 1, 1, 7, 7]);
    let mut back = [7u8; 3];
    assert_eq!(rt; extract(&plan, &word[0..6], &mut back), Ok(2));
    assert!(rt; back == [1, 1, 7]);
    Ok(())
}

// A new place is the plan of length 1, and stays so while fillings are refused.
#[test]
fn plans_refuse_in_order(rt: HostRuntime) -> Result<(), Fail> {
    let mut plan = Plan::new(rt.alloc())?;
    assert_eq!(rt; plan.fill(0, &[]), Err(Refusal::Length));
    assert_eq!(rt; plan.fill(4097, &[2]), Err(Refusal::Length));
    assert_eq!(rt; plan.fill(2, &[1]), Err(Refusal::Marks));
    assert_eq!(rt; plan.fill(2, &[1, 2]), Err(Refusal::Marks));
    assert_eq!(rt; plan.fill(2, &[0, 0]), Err(Refusal::Marks));
    assert_eq!(rt; (plan.length(), plan.active(), plan.weight()), (1, 1, 1));
    assert!(rt; plan.marks().len() == 1);
    Ok(())
}

#[test]
fn encoding_refuses_in_order(rt: HostRuntime) -> Result<(), Fail> {
    let mut plan = Plan::new(rt.alloc())?;
    plan.fill(3, &[1, 0, 1])?;
    let mut out = [7u8; 2];
    assert_eq!(rt; encode(&plan, &[1], &mut out), Err(Refusal::Data));
    assert_eq!(rt; encode(&plan, &[1, 2], &mut out), Err(Refusal::Data));
    assert_eq!(rt; encode(&plan, &[1, 1], &mut out), Err(Refusal::Output));
    assert_eq!(rt; extract(&plan, &[1, 2], &mut []), Err(Refusal::ItemCount));
    assert_eq!(rt; extract(&plan, &[1, 1, 2], &mut []), Err(Refusal::Data));
    assert_eq!(rt;
        extract(&plan, &[1, 1, 1], &mut out[0..1]),
        Err(Refusal::Output)
    );
    assert!(rt; out == [7, 7]);
    Ok(())
}

// What comes back of data 1 0 1 1 0 1 .. at `len` symbols that are all active, beside what went in.
fn there_and_back(plan: &mut Plan, len: usize) -> Result<bool, Refusal> {
    let marks = [1u8; 4096];
    let mut data = [0u8; 4096];
    for (i, d) in data.iter_mut().enumerate() {
        *d = u8::from(i % 3 != 1);
    }
    let mut word = [0u8; 4096];
    let mut back = [7u8; 4096];
    if len > 4096 {
        return Ok(false);
    }
    plan.fill(len, &marks[0..len])?;
    encode(plan, &data[0..len], &mut word)?;
    extract(plan, &word[0..len], &mut back)?;
    Ok(back[0..len] == data[0..len])
}

#[test]
fn every_length_returns(rt: HostRuntime) -> Result<(), Fail> {
    let mut plan = Plan::new(rt.alloc())?;
    for len in 1..200 {
        assert_eq!(rt; there_and_back(&mut plan, len), Ok(true));
    }
    assert_eq!(rt; there_and_back(&mut plan, 4095), Ok(true));
    assert_eq!(rt; there_and_back(&mut plan, 4096), Ok(true));
    assert_eq!(rt; (plan.active(), plan.weight()), (4096, 1));
    Ok(())
}

// The heaviest leaf of the longest block, alone.
#[test]
fn longest_block(rt: HostRuntime) -> Result<(), Fail> {
    let mut plan = Plan::new(rt.alloc())?;
    let mut marks = [0u8; 4096];
    marks[4095] = 1;
    plan.fill(4096, &marks)?;
    assert_eq!(rt; (plan.active(), plan.weight()), (1, 4096));
    let mut word = [0u8; 4096];
    assert_eq!(rt; encode(&plan, &[1], &mut word), Ok(4096));
    assert!(rt; word == [1; 4096]);
    Ok(())
}
