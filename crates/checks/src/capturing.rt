// Captures: making, edits and their charges, levels and questions.
use captures::capture::Capture;
use captures::edit::Edit;
use polar::plan::Plan;
use polar::refusal::Refusal;
use std::test::Fail;

#[test]
fn new_place(rt: HostRuntime) -> Result<(), Fail> {
    let capture = Capture::new(rt.alloc())?;
    assert!(rt; capture.counts() == [127].as_slice());
    assert_eq!(rt; (capture.exponent(), capture.plan().length()), (0, 1));
    Ok(())
}

#[test]
fn making_refuses_in_order(rt: HostRuntime) -> Result<(), Fail> {
    let mut capture = Capture::new(rt.alloc())?;
    let mut plan = Plan::new(rt.alloc())?;
    plan.fill(6, &[0, 0, 0, 0, 1, 1])?;
    assert_eq!(rt; capture.make(&plan, 7, &[2]), Err(Refusal::Range));
    assert_eq!(rt; capture.make(&plan, 6, &[1]), Err(Refusal::Data));
    assert_eq!(rt; capture.make(&plan, 6, &[1, 2]), Err(Refusal::Data));
    assert!(rt; capture.counts() == [127].as_slice());
    assert_eq!(rt; capture.make(&plan, 6, &[1, 1]), Ok(()));
    assert!(rt; capture.counts() == [127, -127, -127, 127, -127, -127].as_slice());
    Ok(())
}

// The length-1 block of datum 1, weakened to the last count that speaks for it, and to none.
#[test]
fn edits(rt: HostRuntime) -> Result<(), Fail> {
    let mut capture = Capture::new(rt.alloc())?;
    let plan = Plan::new(rt.alloc())?;
    capture.make(&plan, 3, &[1])?;
    assert_eq!(rt; capture.edit(0, Edit::Weaken(126)), Ok(()));
    assert!(rt; capture.counts() == [-1].as_slice());
    assert_eq!(rt; capture.edit(0, Edit::Weaken(127)), Ok(()));
    assert!(rt; capture.counts() == [0].as_slice());
    assert_eq!(rt; capture.edit(0, Edit::Level(-0.0625)), Ok(()));
    assert!(rt; capture.counts() == [-1].as_slice());
    assert_eq!(rt; capture.edit(0, Edit::Count(-127)), Ok(()));
    assert!(rt; capture.counts() == [-127].as_slice());
    Ok(())
}

#[test]
fn edits_refuse_in_order(rt: HostRuntime) -> Result<(), Fail> {
    let mut capture = Capture::new(rt.alloc())?;
    assert_eq!(rt; capture.edit(1, Edit::Weaken(0)), Err(Refusal::Place));
    assert_eq!(rt; capture.edit(0, Edit::Weaken(0)), Err(Refusal::Range));
    assert_eq!(rt; capture.edit(0, Edit::Weaken(128)), Err(Refusal::Range));
    assert_eq!(rt; capture.edit(0, Edit::Count(-128)), Err(Refusal::Range));
    assert_eq!(rt; capture.edit(0, Edit::Level(f32::NAN)), Err(Refusal::Range));
    assert!(rt; capture.counts() == [127].as_slice());
    Ok(())
}

#[test]
fn charges(rt: HostRuntime) -> Result<(), Fail> {
    let capture = Capture::new(rt.alloc())?;
    assert_eq!(rt; capture.charge(Edit::Erase), 127);
    assert_eq!(rt; capture.charge(Edit::Count(0)), 254);
    assert_eq!(rt; capture.charge(Edit::Level(0.0)), 254);
    assert_eq!(rt; capture.charge(Edit::Weaken(5)), 5);
    Ok(())
}

#[test]
fn levels_out_and_in(rt: HostRuntime) -> Result<(), Fail> {
    let mut capture = Capture::new(rt.alloc())?;
    let mut plan = Plan::new(rt.alloc())?;
    plan.fill(2, &[1, 1])?;
    capture.make(&plan, 3, &[0, 1])?;
    let mut row = [9.0f32; 3];
    assert_eq!(rt; capture.export(&mut row[0..1]), Err(Refusal::Output));
    assert_eq!(rt; capture.export(&mut row), Ok(2));
    assert!(rt; row == [-15.875, -15.875, 9.0]);
    assert_eq!(rt; capture.import(&row), Err(Refusal::ItemCount));
    assert_eq!(rt; capture.import(&[1.0, f32::NAN]), Err(Refusal::Range));
    assert_eq!(rt; capture.import(&[1.0, -1.0]), Ok(()));
    assert!(rt; capture.counts() == [8, -8].as_slice());
    Ok(())
}

#[test]
fn questions(rt: HostRuntime) -> Result<(), Fail> {
    let mut capture = Capture::new(rt.alloc())?;
    let mut plan = Plan::new(rt.alloc())?;
    plan.fill(2, &[1, 1])?;
    capture.make(&plan, 0, &[0, 0])?;
    capture.edit(0, Edit::Erase)?;
    assert_eq!(rt; capture.shortfall(&[0]), Err(Refusal::ItemCount));
    assert_eq!(rt; capture.shortfall(&[0, 2]), Err(Refusal::Data));
    assert_eq!(rt; capture.shortfall(&[0, 0]), Ok(127));
    assert_eq!(rt; capture.shortfall(&[1, 1]), Ok(381));
    assert_eq!(rt; capture.first_against(&[1, 0]), Ok(None));
    assert_eq!(rt; capture.first_against(&[1, 1]), Ok(Some(1)));
    Ok(())
}
