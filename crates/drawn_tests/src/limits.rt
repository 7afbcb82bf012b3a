// The most that a drawn chart holds.
use chart::{Chart, Move, Refusal};
use drawn::Drawn;
use std::test::Fail;

fn full_of_vertices() -> Result<Drawn, Refusal> {
    let mut chart = Drawn::new();
    for _ in 0..128 {
        chart.place(0, 0)?;
    }
    Ok(chart)
}

fn full_of_moves() -> Result<Drawn, Refusal> {
    let mut chart = Drawn::new();
    chart.place(0, 0)?;
    chart.place(1, 1)?;
    for _ in 0..512 {
        chart.join(0, 1, 1)?;
        chart.join(1, 0, 2)?;
    }
    Ok(chart)
}

#[test]
fn the_128th_and_the_129th_vertex(rt: HostRuntime) -> Result<(), Fail> {
    let mut chart = full_of_vertices()?;
    assert_eq!(rt; chart.size(), 128);
    assert_eq!(rt; chart.find(127), Some(127));
    assert_eq!(rt; chart.place(0, 0), Err(Refusal::TooManyVertices));
    assert_eq!(rt; chart.size(), 128);
    assert_eq!(rt; chart.join(127, 0, 3)?, 0);
    assert_eq!(rt; chart.move_at(127, 0), Some(Move { target: 0, cost: 3 }));
    Ok(())
}

#[test]
fn the_1024th_and_the_1025th_move(rt: HostRuntime) -> Result<(), Fail> {
    let mut chart = full_of_moves()?;
    assert_eq!(rt; chart.degree(0), Some(512));
    assert_eq!(rt; chart.move_at(1, 511), Some(Move { target: 0, cost: 2 }));
    assert_eq!(rt; chart.join(0, 0, 0), Err(Refusal::TooManyMoves));
    assert_eq!(rt; chart.degree(0), Some(512));
    Ok(())
}

#[test]
fn a_struck_move_frees_its_room(rt: HostRuntime) -> Result<(), Fail> {
    let mut chart = full_of_moves()?;
    chart.strike(0, 511)?;
    assert_eq!(rt; chart.join(1, 1, 9)?, 512);
    assert_eq!(rt; chart.move_at(1, 512), Some(Move { target: 1, cost: 9 }));
    assert_eq!(rt; chart.join(0, 0, 0), Err(Refusal::TooManyMoves));
    Ok(())
}

#[test]
fn the_dearest_cost(rt: HostRuntime) -> Result<(), Fail> {
    let mut chart = Drawn::new();
    chart.place(0, 8)?;
    assert_eq!(rt; chart.join(0, 0, 10_000)?, 0);
    assert_eq!(rt; chart.join(0, 0, 10_001), Err(Refusal::CostTooHigh));
    assert_eq!(rt; chart.degree(0), Some(1));
    Ok(())
}
