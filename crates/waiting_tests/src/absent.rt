// Questions about vertices, moves and names that are not there.
use super::layers::{place, triangle};
use chart::Chart;
use std::test::Fail;
use waiting::{Waiting, find_position, locate, position_name, position_number, position_owner};

const FAR: usize = usize::MAX;

/// Every question about the vertex is answered by `None`.
fn about_absent_vertex<C: Chart>(chart: &C, vertex: usize) -> Result<(), Fail> {
    if chart.owner(vertex).is_some()
        || chart.colour(vertex).is_some()
        || chart.degree(vertex).is_some()
        || chart.move_at(vertex, 0).is_some()
        || chart.name(vertex).is_some()
    {
        return Err(Fail::new("an answer about a vertex that is not there"));
    }
    Ok(())
}

#[test]
fn absent_vertices() -> Result<(), Fail> {
    let one = Waiting { below: triangle()? };
    about_absent_vertex(&one, 30)?;
    about_absent_vertex(&one, 31)?;
    about_absent_vertex(&one, FAR)?;
    let two = Waiting { below: one };
    about_absent_vertex(&two, 360)?;
    about_absent_vertex(&two, 361)?;
    about_absent_vertex(&two, FAR)?;
    Ok(())
}

#[test]
fn absent_moves(rt: HostRuntime) -> Result<(), Fail> {
    let one = Waiting { below: triangle()? };
    assert_eq!(rt; one.move_at(0, 3), None);
    assert_eq!(rt; one.move_at(1, 1), None);
    assert_eq!(rt; one.move_at(0, FAR), None);
    let two = Waiting { below: one };
    assert_eq!(rt; two.move_at(0, 3), None);
    assert_eq!(rt; two.move_at(1, FAR), None);
    Ok(())
}

#[test]
fn absent_names(rt: HostRuntime) -> Result<(), Fail> {
    let chart = Waiting { below: triangle()? };
    assert_eq!(rt; chart.find(place(2, 4, 1)), Some(29));
    assert_eq!(rt; chart.find(place(3, 0, 0)), None);
    assert_eq!(rt; chart.find(place(2, 5, 0)), None);
    assert_eq!(rt; chart.find(place(2, 255, 0)), None);
    assert_eq!(rt; chart.find(place(2, 0, 2)), None);
    let two = Waiting { below: chart };
    let low = place(2, 5, 0);
    assert_eq!(rt; two.find(place(low, 0, 0)), None);
    Ok(())
}

#[test]
fn absent_positions_of_a_lent_chart(rt: HostRuntime) -> Result<(), Fail> {
    let below = triangle()?;
    assert_eq!(rt; locate(&below, 30), None);
    assert_eq!(rt; position_owner(&below, 30), None);
    assert_eq!(rt; position_name(&below, 30), None);
    assert_eq!(rt; position_number(&below, place(FAR, 0, 0)), None);
    assert_eq!(rt; find_position(&below, place(3, 0, 0)), None);
    Ok(())
}
