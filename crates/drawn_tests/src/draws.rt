// What a drawn chart answers, on small examples.
use chart::{Chart, Move, Player, Refusal, lowest_dead_end};
use drawn::Drawn;
use std::test::Fail;

/// Vertex 0 is the harbour's, of colour 0, with moves 0/5, 1/0 and 1/0; vertex 1 is ours, of colour 1, with 0/7.
pub fn twins() -> Result<Drawn, Refusal> {
    let mut chart = Drawn::new();
    chart.place(1, 0)?;
    chart.place(0, 1)?;
    chart.join(0, 0, 5)?;
    chart.join(1, 0, 7)?;
    chart.join(0, 1, 0)?;
    chart.join(0, 1, 0)?;
    Ok(chart)
}

#[test]
fn blank_chart(rt: HostRuntime) {
    let chart = Drawn::new();
    assert_eq!(rt; chart.size(), 0);
    assert_eq!(rt; chart.height(), 8);
    assert_eq!(rt; chart.owner(0), None);
    assert_eq!(rt; chart.colour(0), None);
    assert_eq!(rt; chart.degree(0), None);
    assert_eq!(rt; chart.move_at(0, 0), None);
    assert_eq!(rt; chart.name(0), None);
    assert_eq!(rt; chart.find(0), None);
    assert_eq!(rt; lowest_dead_end(&chart), None);
}

#[test]
fn vertices_are_numbered_and_named(rt: HostRuntime) -> Result<(), Fail> {
    let chart = twins()?;
    assert_eq!(rt; chart.size(), 2);
    assert_eq!(rt; chart.owner(0), Some(Player::Harbour));
    assert_eq!(rt; chart.owner(1), Some(Player::Controller));
    assert_eq!(rt; chart.colour(1), Some(1));
    assert_eq!(rt; chart.name(1), Some(1));
    assert_eq!(rt; chart.find(1), Some(1));
    assert_eq!(rt; chart.find(2), None);
    assert_eq!(rt; chart.owner(2), None);
    Ok(())
}

#[test]
fn moves_stand_in_the_order_of_joining(rt: HostRuntime) -> Result<(), Fail> {
    let chart = twins()?;
    assert_eq!(rt; chart.degree(0), Some(3));
    assert_eq!(rt; chart.degree(1), Some(1));
    assert_eq!(rt; chart.move_at(0, 0), Some(Move { target: 0, cost: 5 }));
    assert_eq!(rt; chart.move_at(0, 1), Some(Move { target: 1, cost: 0 }));
    assert_eq!(rt; chart.move_at(0, 2), Some(Move { target: 1, cost: 0 }));
    assert_eq!(rt; chart.move_at(0, 3), None);
    assert_eq!(rt; chart.move_at(1, 0), Some(Move { target: 0, cost: 7 }));
    assert_eq!(rt; chart.move_at(2, 0), None);
    Ok(())
}

#[test]
fn join_answers_the_number_at_its_vertex(rt: HostRuntime) -> Result<(), Fail> {
    let mut chart = twins()?;
    assert_eq!(rt; chart.join(1, 1, 1)?, 1);
    assert_eq!(rt; chart.join(0, 1, 2)?, 3);
    assert_eq!(rt; chart.move_at(1, 1), Some(Move { target: 1, cost: 1 }));
    assert_eq!(rt; chart.move_at(0, 3), Some(Move { target: 1, cost: 2 }));
    Ok(())
}

#[test]
fn lowest_vertex_without_a_move(rt: HostRuntime) -> Result<(), Fail> {
    let mut chart = twins()?;
    assert_eq!(rt; lowest_dead_end(&chart), None);
    chart.place(0, 8)?;
    chart.place(0, 0)?;
    assert_eq!(rt; lowest_dead_end(&chart), Some(2));
    chart.strike(1, 0)?;
    assert_eq!(rt; lowest_dead_end(&chart), Some(1));
    Ok(())
}
