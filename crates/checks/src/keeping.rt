// Captures as bytes.
use captures::capture::Capture;
use captures::edit::Edit;
use polar::plan::Plan;
use polar::refusal::Refusal;
use std::test::Fail;

pub(crate) const WORKED: [u8; 14] = [
    0x01, 0x06, 0x03, 0x04, 0x02, 0xFE, 0x01, 0x00, 0x00, 0xFE, 0x01, 0x00, 0xFD, 0x01,
];

#[test]
fn worked_bytes(rt: HostRuntime) -> Result<(), Fail> {
    let mut capture = Capture::new(rt.alloc())?;
    assert_eq!(rt; capture.load(&WORKED), Ok(()));
    assert!(rt; capture.counts() == [127, 0, 0, 127, 0, -127].as_slice());
    assert!(rt; capture.plan().marks() == [false, false, false, false, true, true].as_slice());
    assert_eq!(rt; capture.exponent(), 3);
    let mut out = [9u8; 16];
    assert_eq!(rt; capture.save(&mut out[0..13]), Err(Refusal::Output));
    assert_eq!(rt; capture.save(&mut out), Ok(14));
    assert!(rt; &out[0..14] == WORKED.as_slice() && out[14] == 9);
    Ok(())
}

// What a load of these bytes is refused with, into a place that stays as it was.
fn refused(capture: &mut Capture, bytes: &[u8]) -> Option<(u8, Option<usize>)> {
    let refusal = capture.load(bytes).err()?;
    Some((refusal.number(), refusal.place()))
}

#[test]
fn damaged_bytes(rt: HostRuntime) -> Result<(), Fail> {
    let mut place = Capture::new(rt.alloc())?;
    assert_eq!(rt; refused(&mut place, &[0x01, 0x00]), Some((10, Some(1))));
    assert_eq!(rt; refused(&mut place, &[0x81, 0x00]), Some((9, Some(0))));
    assert_eq!(rt; refused(&mut place, &[0x01]), Some((8, Some(1))));
    assert_eq!(rt; refused(&mut place, &[]), Some((8, Some(0))));
    assert_eq!(rt; refused(&mut place, &[0x81]), Some((8, Some(1))));
    assert_eq!(rt;
        refused(&mut place, &[0x01, 0x80, 0x80, 0x80]),
        Some((9, Some(1)))
    );
    assert_eq!(rt; refused(&mut place, &[0x02]), Some((10, Some(0))));
    assert_eq!(rt;
        refused(&mut place, &[0x01, 0x81, 0x20]),
        Some((10, Some(1)))
    );
    assert!(rt; place.counts() == [127].as_slice());
    Ok(())
}

#[test]
fn fields_against_their_rules(rt: HostRuntime) -> Result<(), Fail> {
    let mut place = Capture::new(rt.alloc())?;
    assert_eq!(rt; refused(&mut place, &[1, 2, 7]), Some((10, Some(2))));
    assert_eq!(rt; refused(&mut place, &[1, 2, 0, 2]), Some((10, Some(3))));
    assert_eq!(rt; refused(&mut place, &[1, 2, 0, 1, 0]), Some((10, Some(4))));
    assert_eq!(rt; refused(&mut place, &[1, 2, 0, 1, 2]), Some((10, Some(4))));
    assert_eq!(rt;
        refused(&mut place, &[1, 1, 0, 0, 1, 0xFF, 1]),
        Some((10, Some(5)))
    );
    assert_eq!(rt;
        refused(&mut place, &[1, 1, 0, 0, 1, 3, 7]),
        Some((11, Some(6)))
    );
    assert_eq!(rt; refused(&mut place, &[1, 1, 0, 0, 1, 3]), None);
    assert!(rt; place.counts() == [-2].as_slice());
    Ok(())
}

// Makes every second leaf active.
pub(crate) fn mark_even(marks: &mut [u8]) {
    for (i, m) in marks.iter_mut().enumerate() {
        *m = u8::from(i % 2 == 0);
    }
}

// The longest form: every second leaf active, every count of two bytes.
#[test]
fn longest_capture(rt: HostRuntime) -> Result<(), Fail> {
    let mut plan = Plan::new(rt.alloc())?;
    let mut marks = [0u8; 4096];
    mark_even(&mut marks);
    plan.fill(4096, &marks)?;
    let mut capture = Capture::new(rt.alloc())?;
    capture.make(&plan, 6, &[1; 2048])?;
    let mut out = [0u8; 12293];
    assert_eq!(rt; capture.save(&mut out), Ok(12293));
    capture.edit(0, Edit::Erase)?;
    assert_eq!(rt; capture.load(&out), Ok(()));
    assert!(rt; capture.counts().len() == 4096 && capture.plan().active() == 2048);
    Ok(())
}
