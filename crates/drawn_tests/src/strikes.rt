// Moves that are taken out.
use super::draws::twins;
use chart::{Chart, Move};
use drawn::Drawn;
use std::test::Fail;

#[test]
fn later_moves_go_down_by_one(rt: HostRuntime) -> Result<(), Fail> {
    let mut chart = twins()?;
    chart.strike(0, 0)?;
    assert_eq!(rt; chart.degree(0), Some(2));
    assert_eq!(rt; chart.move_at(0, 0), Some(Move { target: 1, cost: 0 }));
    assert_eq!(rt; chart.move_at(0, 1), Some(Move { target: 1, cost: 0 }));
    assert_eq!(rt; chart.move_at(0, 2), None);
    assert_eq!(rt; chart.move_at(1, 0), Some(Move { target: 0, cost: 7 }));
    Ok(())
}

#[test]
fn a_move_in_the_middle(rt: HostRuntime) -> Result<(), Fail> {
    let mut chart = Drawn::new();
    chart.place(0, 0)?;
    for cost in 0..5 {
        chart.join(0, 0, cost)?;
    }
    chart.strike(0, 2)?;
    assert_eq!(rt; chart.move_at(0, 1), Some(Move { target: 0, cost: 1 }));
    assert_eq!(rt; chart.move_at(0, 2), Some(Move { target: 0, cost: 3 }));
    assert_eq!(rt; chart.move_at(0, 3), Some(Move { target: 0, cost: 4 }));
    assert_eq!(rt; chart.join(0, 0, 9)?, 4);
    Ok(())
}

#[test]
fn the_last_move_of_a_vertex(rt: HostRuntime) -> Result<(), Fail> {
    let mut chart = twins()?;
    chart.strike(1, 0)?;
    assert_eq!(rt; chart.degree(1), Some(0));
    assert_eq!(rt; chart.move_at(1, 0), None);
    assert_eq!(rt; chart.degree(0), Some(3));
    assert_eq!(rt; chart.join(1, 1, 4)?, 0);
    assert_eq!(rt; chart.move_at(1, 0), Some(Move { target: 1, cost: 4 }));
    Ok(())
}
