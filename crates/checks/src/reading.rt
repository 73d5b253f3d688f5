// Readers over lists of counts and of erasures.
use polar::plan::Plan;
use polar::refusal::Refusal;
use polar::rows::{Items, write_items};
use readers::leaf::Leaf;
use readers::lists::{read_list, shortfall};
use readers::reader::Reader;
use readers::split::Split;
use scored_readers::exhaustive::Exhaustive;
use scored_readers::shortcut::Shortcut;
use soft::count::Count;
use soft::erasure::Erasure;
use std::test::Fail;

// The data that a pile reads of counts, as a number with the first datum highest, behind a 1.
fn data_of<R: Reader<Count>>(pile: &R, plan: &Plan, counts: &[i16]) -> Result<u32, Refusal> {
    let mut row = [0; 8];
    if counts.len() > 8 {
        return Err(Refusal::ItemCount);
    }
    write_items(
        &mut row,
        Items {
            chain: counts.iter().copied(),
            most: counts.len(),
        },
    )?;
    let values = row.map(Count::from);
    let mut soft = [Count(0); 256];
    let mut bits = [false; 256];
    let mut data = [7u8; 8];
    let k = read_list(
        pile,
        plan,
        &values[0..counts.len()],
        &mut soft,
        &mut bits,
        &mut data,
    )?;
    Ok(
        data.iter().take(k).fold(1u32, |number, d| {
            number.wrapping_mul(2).wrapping_add(u32::from(*d))
        }),
    )
}

#[test]
fn six_symbols(rt: HostRuntime) -> Result<(), Fail> {
    let mut plan = Plan::new(rt.alloc())?;
    plan.fill(6, &[0, 0, 0, 0, 1, 1])?;
    let pile = Split { below: Leaf };
    assert_eq!(rt;
        data_of(&pile, &plan, &[127, 0, 0, 127, 0, -127]),
        Ok(0b111)
    );
    assert_eq!(rt;
        data_of(&pile, &plan, &[127, 127, 127, 127, -127, -127]),
        Ok(0b100)
    );
    let sure = [
        Count(127),
        Count(0),
        Count(0),
        Count(127),
        Count(0),
        Count(-127),
    ];
    assert_eq!(rt; shortfall(&plan, &sure, &[0, 1, 1, 0, 1, 1]), Ok(381));
    let half = [
        Count(127),
        Count(127),
        Count(127),
        Count(127),
        Count(-127),
        Count(-127),
    ];
    assert_eq!(rt; shortfall(&plan, &half, &[0, 1, 1, 0, 1, 1]), Ok(508));
    Ok(())
}

// Where split over leaf and the exhaustive reader differ, a split hands the node down.
#[test]
fn four_symbols(rt: HostRuntime) -> Result<(), Fail> {
    let mut plan = Plan::new(rt.alloc())?;
    plan.fill(4, &[0, 1, 0, 1])?;
    let two = Exhaustive::new(2)?;
    let counts = [-4, 1, 1, 1];
    assert_eq!(rt; data_of(&Split { below: Leaf }, &plan, &counts), Ok(0b101));
    assert_eq!(rt; data_of(&two, &plan, &counts), Ok(0b110));
    assert_eq!(rt; data_of(&Split { below: two }, &plan, &counts), Ok(0b110));
    Ok(())
}

#[test]
fn shortcut_patterns(rt: HostRuntime) -> Result<(), Fail> {
    let mut plan = Plan::new(rt.alloc())?;
    let pile = Shortcut { below: Leaf };
    plan.fill(5, &[0, 1, 1, 1, 1])?;
    assert_eq!(rt; data_of(&pile, &plan, &[90, -20, 60, 5, 40]), Ok(0b11010));
    plan.fill(2, &[0, 1])?;
    assert_eq!(rt; data_of(&pile, &plan, &[5, -5]), Ok(0b11));
    plan.fill(3, &[0, 0, 1])?;
    assert_eq!(rt; data_of(&pile, &plan, &[-3, 9, 3]), Ok(0b10));
    let deeper = Shortcut {
        below: Split { below: Leaf },
    };
    assert_eq!(rt; data_of(&deeper, &plan, &[-3, 9, 3]), Ok(0b10));
    plan.fill(4, &[0, 1, 0, 1])?;
    assert_eq!(rt;
        data_of(&pile, &plan, &[-4, 1, 1, 1]),
        Err(Refusal::NotTaken)
    );
    Ok(())
}

#[test]
fn thresholds(rt: HostRuntime) {
    assert!(rt; Exhaustive::new(0).is_err());
    assert!(rt; Exhaustive::new(1).is_ok());
    assert!(rt; Exhaustive::new(8).is_ok());
    assert!(rt; matches!(Exhaustive::new(9), Err(Refusal::Range)));
}

// What a reading answers in buffers of these lengths; a refusal that changed a buffer answers `Place`, which no reading does.
fn attempt<R: Reader<Count>>(
    pile: &R,
    plan: &Plan,
    values: &[Count],
    soft_len: usize,
    out_len: usize,
) -> Result<usize, Refusal> {
    let mut soft = [Count(9); 80];
    let mut bits = [true; 80];
    let mut out = [7u8; 4];
    let (soft_len, out_len) = (soft_len.min(80), out_len.min(4));
    let answer = read_list(
        pile,
        plan,
        values,
        &mut soft[0..soft_len],
        &mut bits,
        &mut out[0..out_len],
    );
    let kept = soft[0] == Count(9) && bits == [true; 80] && out == [7; 4];
    if answer.is_err() && !kept {
        return Err(Refusal::Place);
    }
    answer
}

// The number of values, a value out of range, the plan, the room, the output.
#[test]
fn lists_refuse_in_order(rt: HostRuntime) -> Result<(), Fail> {
    let mut plan = Plan::new(rt.alloc())?;
    plan.fill(2, &[1, 1])?;
    let pile = Split { below: Leaf };
    let good = [Count(127), Count(-127)];
    assert_eq!(rt;
        attempt(&pile, &plan, &good[0..1], 0, 0),
        Err(Refusal::ItemCount)
    );
    assert_eq!(rt;
        attempt(&pile, &plan, &[Count(0), Count(128)], 0, 0),
        Err(Refusal::Range)
    );
    assert_eq!(rt; attempt(&Leaf, &plan, &good, 0, 0), Err(Refusal::NotTaken));
    assert_eq!(rt;
        attempt(&pile, &plan, &good, 73, 0),
        Err(Refusal::WorkingRoom)
    );
    assert_eq!(rt; attempt(&pile, &plan, &good, 74, 1), Err(Refusal::Output));
    assert_eq!(rt; attempt(&pile, &plan, &good, 74, 4), Ok(2));
    Ok(())
}

#[test]
fn erasures_read(rt: HostRuntime) -> Result<(), Fail> {
    let mut plan = Plan::new(rt.alloc())?;
    plan.fill(6, &[0, 0, 0, 0, 1, 1])?;
    let (z, o, u) = (Erasure::Zero, Erasure::One, Erasure::Unknown);
    let mut soft = [u; 128];
    let mut bits = [false; 128];
    let mut out = [7u8; 2];
    let pile = Split { below: Leaf };
    assert_eq!(rt;
        read_list(
            &pile,
            &plan,
            &[z, u, u, z, u, o],
            &mut soft,
            &mut bits,
            &mut out,
        ),
        Ok(2)
    );
    assert!(rt; out == [1, 1]);
    assert_eq!(rt;
        shortfall(&plan, &[z, u, u, z, u, o], &[0, 1, 1, 0, 1, 1]),
        Ok(3)
    );
    assert_eq!(rt;
        shortfall(&plan, &[z, u, u, z, u, o], &[1, 1, 1, 0, 1, 1]),
        Ok(8195)
    );
    Ok(())
}
