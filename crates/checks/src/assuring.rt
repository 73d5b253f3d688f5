// Kept captures read back, and the bound on what they bear.
use analyser::comparing::compare_readings;
use analyser::reading::{read_capture, read_counts};
use analyser::worst::worst_pair;
use captures::capture::Capture;
use captures::edit::Edit;
use polar::plan::Plan;
use polar::refusal::Refusal;
use readers::leaf::Leaf;
use readers::split::Split;
use soft::count::Count;
use soft::erasure::Erasure;
use std::test::Fail;

const PILE: Split<Leaf> = Split { below: Leaf };

// Makes a capture of data on a plan of up to 8 marks.
fn make(plan: &mut Plan, capture: &mut Capture, marks: &[u8], data: &[u8]) -> Result<(), Refusal> {
    plan.fill(marks.len(), marks)?;
    capture.make(plan, 3, data)
}

// The first two data that are read by counts, and by erasures below: two calls, each tried in its own words. 7 stands where none was written.
fn by_counts(capture: &Capture) -> Result<(u8, u8), Refusal> {
    let mut soft = [Count(0); 256];
    let mut bits = [false; 256];
    let mut data = [7u8; 8];
    read_counts(&PILE, capture, &mut soft, &mut bits, &mut data)?;
    Ok((data[0], data[1]))
}

fn by_erasures(capture: &Capture) -> Result<(u8, u8), Refusal> {
    let mut soft = [Erasure::Unknown; 256];
    let mut bits = [false; 256];
    let mut data = [7u8; 8];
    read_capture(&PILE, capture, &mut soft, &mut bits, &mut data)?;
    Ok((data[0], data[1]))
}

#[test]
fn kept_capture_reads(rt: HostRuntime) -> Result<(), Fail> {
    let mut plan = Plan::new(rt.alloc())?;
    let mut capture = Capture::new(rt.alloc())?;
    make(&mut plan, &mut capture, &[0, 0, 0, 0, 1, 1], &[1, 1])?;
    capture.edit(1, Edit::Erase)?;
    capture.edit(2, Edit::Erase)?;
    capture.edit(4, Edit::Weaken(127))?;
    assert_eq!(rt; by_counts(&capture), Ok((1, 1)));
    assert_eq!(rt; by_erasures(&capture), Ok((1, 1)));
    Ok(())
}

// One wrong count and one erasure, charged 381 of 508: the promise is about readings by counts.
#[test]
fn erasures_bear_less(rt: HostRuntime) -> Result<(), Fail> {
    let mut plan = Plan::new(rt.alloc())?;
    let mut capture = Capture::new(rt.alloc())?;
    make(&mut plan, &mut capture, &[0, 0, 0, 1], &[1])?;
    capture.edit(1, Edit::Erase)?;
    capture.edit(3, Edit::Count(127))?;
    assert_eq!(rt; by_counts(&capture), Ok((1, 7)));
    assert_eq!(rt; by_erasures(&capture), Ok((0, 7)));
    Ok(())
}

#[test]
fn readings_refuse_in_order(rt: HostRuntime) -> Result<(), Fail> {
    let capture = Capture::new(rt.alloc())?;
    let mut soft = [Count(5); 256];
    let mut bits = [true; 256];
    let mut data = [7u8; 8];
    let short = read_counts(&PILE, &capture, &mut soft[0..8], &mut bits, &mut data);
    assert_eq!(rt; short, Err(Refusal::WorkingRoom));
    let none = read_counts(&PILE, &capture, &mut soft, &mut bits, &mut data[0..0]);
    assert_eq!(rt; none, Err(Refusal::Output));
    assert!(rt; soft[0].0 == 5 && bits[0] && data[0] == 7);
    Ok(())
}

// At the bound the captures of two data words are the same, so no reader can tell them apart.
#[test]
fn bound_is_met(rt: HostRuntime) -> Result<(), Fail> {
    let mut plan = Plan::new(rt.alloc())?;
    plan.fill(6, &[0, 0, 0, 0, 1, 1])?;
    let mut one = [7u8; 3];
    let mut other = [7u8; 3];
    let mut places = [9usize; 5];
    assert_eq!(rt;
        worst_pair(&plan, &mut one, &mut other, &mut places[0..3]),
        Err(Refusal::Output)
    );
    assert_eq!(rt; worst_pair(&plan, &mut one, &mut other, &mut places), Ok(4));
    assert!(rt; one == [0, 0, 7] && other == [1, 0, 7]);
    assert!(rt; places == [0, 1, 3, 4, 9]);
    let mut left = Capture::new(rt.alloc())?;
    let mut right = Capture::new(rt.alloc())?;
    left.make(&plan, 3, &one[0..2])?;
    right.make(&plan, 3, &other[0..2])?;
    for place in places.iter().take(4) {
        left.edit(*place, Edit::Erase)?;
        right.edit(*place, Edit::Erase)?;
    }
    assert!(rt; left.counts() == right.counts());
    Ok(())
}

// Compares six fresh counts with a kept capture of the data 1 1.
fn agree(capture: &Capture, values: &[Count], room: usize) -> Result<bool, Refusal> {
    let mut soft = [Count(0); 256];
    let mut counts = [Count(0); 256];
    let mut bits = [false; 256];
    if room > 256 {
        return Err(Refusal::Length);
    }
    compare_readings(
        &PILE,
        values,
        &mut soft,
        &PILE,
        capture,
        &mut counts[0..room],
        &mut bits,
    )
}

#[test]
fn fresh_and_kept(rt: HostRuntime) -> Result<(), Fail> {
    let mut plan = Plan::new(rt.alloc())?;
    let mut capture = Capture::new(rt.alloc())?;
    make(&mut plan, &mut capture, &[0, 0, 0, 0, 1, 1], &[1, 1])?;
    capture.edit(5, Edit::Erase)?;
    let same = [
        Count(100),
        Count(-100),
        Count(-100),
        Count(100),
        Count(-100),
        Count(-100),
    ];
    assert_eq!(rt; agree(&capture, &same, 256), Ok(true));
    assert_eq!(rt; agree(&capture, &[Count(9); 6], 256), Ok(false));
    assert_eq!(rt;
        agree(&capture, &[Count(9); 5], 256),
        Err(Refusal::ItemCount)
    );
    assert_eq!(rt; agree(&capture, &[Count(200); 6], 256), Err(Refusal::Range));
    assert_eq!(rt;
        agree(&capture, &[Count(200); 6], 8),
        Err(Refusal::WorkingRoom)
    );
    Ok(())
}
