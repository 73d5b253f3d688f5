// Counts and levels.
use levels::scale::Scale;
use levels::scale::rows::all_numbers;
use polar::refusal::Refusal;
use std::test::Fail;

#[test]
fn levels_at_exponent_three(rt: HostRuntime) -> Result<(), Fail> {
    let scale = Scale::new(3)?;
    assert_eq!(rt; scale.count_of(0.0625), Ok(1));
    assert_eq!(rt; scale.count_of(-0.0625), Ok(-1));
    assert_eq!(rt; scale.count_of(0.062499996), Ok(0));
    assert_eq!(rt; scale.count_of(100.0), Ok(127));
    assert_eq!(rt; scale.count_of(f32::NEG_INFINITY), Ok(-127));
    assert_eq!(rt; scale.count_of(3.4e38), Ok(127));
    assert_eq!(rt; scale.count_of(1e-45), Ok(0));
    assert_eq!(rt; scale.count_of(f32::NAN), Err(Refusal::Range));
    Ok(())
}

#[test]
fn halves_and_zeros(rt: HostRuntime) -> Result<(), Fail> {
    let scale = Scale::new(0)?;
    assert_eq!(rt; scale.count_of(0.49999997), Ok(0));
    assert_eq!(rt; scale.count_of(-0.0), Ok(0));
    assert_eq!(rt; scale.count_of(126.5), Ok(127));
    assert!(rt; 1.0 / scale.level_of(0) == f32::INFINITY);
    assert!(rt; matches!(Scale::new(7), Err(Refusal::Range)));
    assert!(rt; !all_numbers(&[0.0, f32::NAN]));
    Ok(())
}

// Every count, at every exponent, there and back.
#[test]
fn every_count_returns(rt: HostRuntime) -> Result<(), Fail> {
    for exponent in 0..7 {
        let scale = Scale::new(exponent)?;
        for count in -127i16..128 {
            assert_eq!(rt; scale.count_of(scale.level_of(count)), Ok(count));
        }
    }
    Ok(())
}
