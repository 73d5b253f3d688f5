// Child lengths, walks and labels.
use polar::frame::Node;
use polar::labels::{transform, untransform};
use polar::refusal::Refusal;
use polar::tree::children;
use polar::walk::Walk;
use std::test::Fail;

#[test]
fn children_halve_any_length(rt: HostRuntime) {
    assert_eq!(rt; children(0), (0, 0));
    assert_eq!(rt; children(1), (0, 0));
    assert_eq!(rt; children(2), (1, 1));
    assert_eq!(rt; children(9), (5, 4));
    assert_eq!(rt; children(4095), (2048, 2047));
    assert_eq!(rt; children(usize::MAX), (1 << 63, (1 << 63) - 1));
}

#[test]
fn refusals_have_numbers_and_places(rt: HostRuntime) {
    assert_eq!(rt; Refusal::Length.number(), 1);
    assert_eq!(rt; Refusal::ItemCount.number(), 13);
    assert_eq!(rt; Refusal::FieldRule(1).number(), 10);
    assert_eq!(rt; Refusal::FieldRule(1).place(), Some(1));
    assert_eq!(rt; Refusal::NotTaken.place(), None);
}

#[test]
fn refusals_print(rt: HostRuntime) -> Result<(), Fail> {
    let placed = format!(in rt.alloc(); "{}", Refusal::FieldRule(1))?;
    assert_eq!(rt; placed.as_str(), "refused 10 at 1");
    let plain = format!(in rt.alloc(); "{}", Refusal::Range)?;
    assert_eq!(rt; plain.as_str(), "refused 5");
    Ok(())
}

#[test]
fn walks_refuse_other_lengths(rt: HostRuntime) {
    assert!(rt; matches!(Walk::new(0), Err(Refusal::Length)));
    assert!(rt; matches!(Walk::new(4097), Err(Refusal::Length)));
    assert!(rt; Walk::new(4096).is_ok());
}

// The nodes after the root of three symbols, and none for ever after.
#[test]
fn walk_over_three_symbols(rt: HostRuntime) -> Result<(), Fail> {
    let mut walk = Walk::new(3)?;
    assert_eq!(rt; walk.node(), node(3, 0, 0));
    assert_eq!(rt; walk.advance(), Some(node(2, 0, 0)));
    assert_eq!(rt; walk.advance(), Some(node(1, 0, 0)));
    assert_eq!(rt; walk.advance(), Some(node(1, 1, 1)));
    assert_eq!(rt; walk.advance(), Some(node(1, 2, 1)));
    assert_eq!(rt; walk.advance(), None);
    assert_eq!(rt; walk.advance(), None);
    assert_eq!(rt; walk.node(), node(1, 2, 1));
    Ok(())
}

// The same nodes by the walk's iterator.
#[test]
fn walk_as_an_iterator(rt: HostRuntime) -> Result<(), Fail> {
    let mut walk = Walk::new(3)?;
    assert_eq!(rt; walk.next(), Some(node(2, 0, 0)));
    let mut last = None;
    for node in walk {
        last = Some(node);
    }
    assert_eq!(rt; last, Some(node(1, 2, 1)));
    Ok(())
}

fn node(len: usize, first: usize, turns: usize) -> Node {
    Node { len, first, turns }
}

// The number of moves, and the last node, at the shortest and the longest lengths.
#[test]
fn walks_meet_every_node(rt: HostRuntime) {
    assert_eq!(rt; moves(1), Some((0, node(1, 0, 0))));
    assert_eq!(rt; moves(2), Some((2, node(1, 1, 1))));
    assert_eq!(rt; moves(768), Some((1534, node(1, 767, 9))));
    assert_eq!(rt; moves(4095), Some((8188, node(1, 4094, 11))));
    assert_eq!(rt; moves(4096), Some((8190, node(1, 4095, 12))));
}

fn moves(len: usize) -> Option<(u32, Node)> {
    let mut walk = Walk::new(len).ok()?;
    let mut count = 0u32;
    for _ in 0..10_000 {
        count = count.saturating_add(u32::from(walk.advance().is_some()));
    }
    Some((count, walk.node()))
}

#[test]
fn labels_go_both_ways(rt: HostRuntime) {
    let mut six = [false, true, false, false, true, true];
    transform(&mut six);
    assert!(rt; six == [true, false, true, false, true, true]);
    untransform(&mut six);
    assert!(rt; six == [false, true, false, false, true, true]);
    let mut none: [bool; 0] = [];
    transform(&mut none);
    untransform(&mut none);
    let mut long = [true; 4095];
    transform(&mut long);
    assert!(rt; long[4094]);
    untransform(&mut long);
    assert!(rt; long == [true; 4095]);
}
