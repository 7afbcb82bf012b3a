// What the waiting chart answers, on small examples.
use chart::{Chart, Move, Player, Refusal};
use drawn::Drawn;
use std::test::Fail;
use waiting::{
    Position, Waiting, arrive, first_position, locate, position_colour, position_move,
    position_number, positions,
};

/// Vertex 0 is the harbour's, of colour 0, with moves 0/5, 1/0 and 2/1; vertex 1 is ours, of
/// colour 1, with 0/7 and 2/0; vertex 2 is ours, of colour 2, with 1/0.
pub fn triangle() -> Result<Drawn, Refusal> {
    let mut chart = Drawn::new();
    chart.place(1, 0)?;
    chart.place(0, 1)?;
    chart.place(0, 2)?;
    chart.join(0, 0, 5)?;
    chart.join(0, 1, 0)?;
    chart.join(0, 2, 1)?;
    chart.join(1, 0, 7)?;
    chart.join(1, 2, 0)?;
    chart.join(2, 1, 0)?;
    Ok(chart)
}

/// The position of a vertex, or of its name, with a level and a stage.
pub fn place<N>(below: N, level: u8, stage: u8) -> Position<N> {
    Position {
        below,
        level,
        stage,
    }
}

fn free(target: usize) -> Option<Move> {
    Some(Move { target, cost: 0 })
}

#[test]
fn levels_on_arriving(rt: HostRuntime) {
    assert_eq!(rt; arrive(0, 0), 0);
    assert_eq!(rt; arrive(0, 1), 1);
    assert_eq!(rt; arrive(3, 1), 3);
    assert_eq!(rt; arrive(1, 5), 3);
    assert_eq!(rt; arrive(2, 3), 2);
    assert_eq!(rt; arrive(2, 2), 2);
    assert_eq!(rt; arrive(2, 4), 0);
    assert_eq!(rt; arrive(255, 255), 255);
}

#[test]
fn size_owners_colours_and_degrees(rt: HostRuntime) -> Result<(), Fail> {
    let chart = Waiting { below: triangle()? };
    assert_eq!(rt; chart.size(), 30);
    assert_eq!(rt; chart.height(), 10);
    assert_eq!(rt; chart.owner(9), Some(Player::Harbour));
    assert_eq!(rt; chart.owner(10), Some(Player::Controller));
    assert_eq!(rt; chart.colour(20), Some(10));
    assert_eq!(rt; chart.colour(21), Some(0));
    assert_eq!(rt; chart.colour(22), Some(2));
    assert_eq!(rt; chart.colour(23), Some(9));
    assert_eq!(rt; chart.degree(8), Some(3));
    assert_eq!(rt; chart.degree(9), Some(1));
    Ok(())
}

#[test]
fn moves_arrive_at_a_level_and_a_stage(rt: HostRuntime) -> Result<(), Fail> {
    let chart = Waiting { below: triangle()? };
    assert_eq!(rt; chart.move_at(0, 0), free(1));
    assert_eq!(rt; chart.move_at(0, 1), free(12));
    assert_eq!(rt; chart.move_at(0, 2), free(21));
    assert_eq!(rt; chart.move_at(12, 0), free(3));
    assert_eq!(rt; chart.move_at(12, 1), free(20));
    assert_eq!(rt; chart.move_at(14, 1), free(24));
    assert_eq!(rt; chart.move_at(24, 0), free(14));
    assert_eq!(rt; chart.move_at(25, 0), free(24));
    assert_eq!(rt; chart.move_at(25, 1), None);
    Ok(())
}

#[test]
fn names_lead_back(rt: HostRuntime) -> Result<(), Fail> {
    let chart = Waiting { below: triangle()? };
    for vertex in 0..chart.size() {
        assert_eq!(rt;
            chart.name(vertex).and_then(|name| chart.find(name)),
            Some(vertex)
        );
    }
    assert_eq!(rt; chart.name(25), Some(place(2, 2, 1)));
    Ok(())
}

#[test]
fn first_positions(rt: HostRuntime) -> Result<(), Fail> {
    let below = triangle()?;
    assert_eq!(rt; first_position(&below, 0), Some(0));
    assert_eq!(rt; first_position(&below, 1), Some(12));
    assert_eq!(rt; first_position(&below, 2), Some(20));
    assert_eq!(rt; first_position(&below, 3), None);
    Ok(())
}

#[test]
fn a_chart_that_is_only_lent(rt: HostRuntime) -> Result<(), Fail> {
    let below = triangle()?;
    assert_eq!(rt; positions(&below), 30);
    assert_eq!(rt; position_colour(&below, 23), Some(9));
    assert_eq!(rt; position_move(&below, 0, 1), free(12));
    assert_eq!(rt; locate(&below, 25), Some(place(2, 2, 1)));
    assert_eq!(rt; position_number(&below, place(2, 2, 1)), Some(25));
    Ok(())
}
