// What the bench program prints.
use crate::keeping::{WORKED, mark_even};
use captures::capture::Capture;
use polar::plan::Plan;
use polar::refusal::Refusal;
use reports::bench::Bench;
use reports::page::Page;
use std::process::Abort;
use std::test::Fail;

fn prints(rt: &impl Abort, bench: &mut Bench, input: &[u8], text: &[u8]) {
    bench.run(input);
    assert!(rt; bench.text() == text);
}

const REPORT: &[u8] =
    b"length 6\nactive 2\nweight 4\ndata 11\nshortfall 381 of 508\nagainst none\n";

// Counts 127 127 127 127 -127 -127 on the same plan read as 00, which place 4 contradicts first.
const CONTRADICTED: &[u8] =
    b"length 6\nactive 2\nweight 4\ndata 00\nshortfall 508 of 508\nagainst 4\n";

#[test]
fn reports_of_captures(rt: HostRuntime) -> Result<(), Fail> {
    let mut bench = Bench::new(rt.alloc())?;
    prints(&rt, &mut bench, &WORKED, REPORT);
    let halfway = [
        1, 6, 3, 4, 2, 0xFE, 1, 0xFE, 1, 0xFE, 1, 0xFE, 1, 0xFD, 1, 0xFD, 1,
    ];
    prints(&rt, &mut bench, &halfway, CONTRADICTED);
    let one = b"length 1\nactive 1\nweight 1\ndata 1\nshortfall 126 of 127\nagainst none\n";
    prints(&rt, &mut bench, &[1, 1, 0, 0, 1, 1], one);
    Ok(())
}

#[test]
fn reports_of_refusals(rt: HostRuntime) -> Result<(), Fail> {
    let mut bench = Bench::new(rt.alloc())?;
    prints(&rt, &mut bench, &[], b"refused 8 at 0\n");
    prints(&rt, &mut bench, &[0x01], b"refused 8 at 1\n");
    prints(&rt, &mut bench, &[0x81, 0x00], b"refused 9 at 0\n");
    prints(&rt, &mut bench, &[0x01, 0x00], b"refused 10 at 1\n");
    prints(
        &rt,
        &mut bench,
        &[1, 1, 0, 0, 1, 3, 7],
        b"refused 11 at 6\n",
    );
    prints(&rt, &mut bench, &WORKED, REPORT);
    Ok(())
}

// The longest stored capture, alone and with as many bytes behind it as the program looks at.
#[test]
fn longest_input(rt: HostRuntime) -> Result<(), Fail> {
    let mut plan = Plan::new(rt.alloc())?;
    let mut marks = [0u8; 4096];
    mark_even(&mut marks);
    plan.fill(4096, &marks)?;
    let mut capture = Capture::new(rt.alloc())?;
    capture.make(&plan, 6, &[1; 2048])?;
    let mut input = [0u8; 16384];
    assert_eq!(rt; capture.save(&mut input), Ok(12293));
    let mut bench = Bench::new(rt.alloc())?;
    bench.run(&input[0..12293]);
    assert!(rt; bench.text().len() == 2119);
    assert!(rt;
        bench
            .text()
            .starts_with(b"length 4096\nactive 2048\nweight 1\ndata 1111")
    );
    assert!(rt;
        bench
            .text()
            .ends_with(b"1111\nshortfall 0 of 127\nagainst none\n")
    );
    prints(&rt, &mut bench, &input, b"refused 11 at 12293\n");
    prints(&rt, &mut bench, &[0x80; 16384], b"refused 9 at 0\n");
    Ok(())
}

#[test]
fn pages_refuse_other_data(rt: HostRuntime) -> Result<(), Fail> {
    let mut page = Page::new(rt.alloc())?;
    assert!(rt; page.text().is_empty());
    let capture = Capture::new(rt.alloc())?;
    page.tell_refusal(Refusal::Range);
    assert!(rt; page.text() == b"refused 5\n".as_slice());
    assert_eq!(rt; page.tell_capture(&capture, &[0, 0]), Err(Refusal::Data));
    assert_eq!(rt; page.tell_capture(&capture, &[2]), Err(Refusal::Data));
    assert!(rt; page.text() == b"refused 5\n".as_slice());
    assert_eq!(rt; page.tell_capture(&capture, &[1]), Ok(()));
    let all = b"length 1\nactive 1\nweight 1\ndata 1\nshortfall 254 of 127\nagainst 0\n";
    assert!(rt; page.text() == all.as_slice());
    Ok(())
}
