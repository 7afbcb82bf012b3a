// Each refusal with its number and place, and which comes first where two apply.
use super::draws::twins;
use chart::{Chart, Refusal};
use drawn::Drawn;
use std::test::Fail;

#[test]
fn numbers_and_places(rt: HostRuntime) {
    let all = [
        Refusal::UnknownOwner,
        Refusal::ColourTooHigh,
        Refusal::TooManyVertices,
        Refusal::AbsentVertex,
        Refusal::CostTooHigh,
        Refusal::TooManyMoves,
        Refusal::AbsentMove,
    ];
    for (refusal, number) in all.iter().zip(1..8) {
        assert_eq!(rt; refusal.number(), number);
        assert_eq!(rt; refusal.place(), 0);
    }
    assert_eq!(rt; all.len(), 7);
}

#[test]
fn shown_as_number_and_place(rt: HostRuntime) -> Result<(), Fail> {
    let text = format!(in rt.alloc(); "{}", Refusal::AbsentMove)?;
    assert_eq!(rt; text.as_str(), "refused=7,0");
    Ok(())
}

#[test]
fn place_refuses_in_order(rt: HostRuntime) -> Result<(), Fail> {
    let mut chart = Drawn::new();
    assert_eq!(rt; chart.place(2, 0), Err(Refusal::UnknownOwner));
    assert_eq!(rt; chart.place(256, 0), Err(Refusal::UnknownOwner));
    assert_eq!(rt; chart.place(70_000, 9), Err(Refusal::UnknownOwner));
    assert_eq!(rt; chart.place(4_294_967_295, 0), Err(Refusal::UnknownOwner));
    assert_eq!(rt; chart.place(1, 9), Err(Refusal::ColourTooHigh));
    assert_eq!(rt; chart.place(1, 264), Err(Refusal::ColourTooHigh));
    assert_eq!(rt; chart.size(), 0);
    for _ in 0..128 {
        chart.place(1, 8)?;
    }
    assert_eq!(rt; chart.place(2, 9), Err(Refusal::UnknownOwner));
    assert_eq!(rt; chart.place(0, 9), Err(Refusal::ColourTooHigh));
    assert_eq!(rt; chart.place(0, 8), Err(Refusal::TooManyVertices));
    Ok(())
}

#[test]
fn join_refuses_in_order(rt: HostRuntime) -> Result<(), Fail> {
    let mut chart = twins()?;
    assert_eq!(rt; chart.join(2, 0, 0), Err(Refusal::AbsentVertex));
    assert_eq!(rt; chart.join(0, 65_536, 0), Err(Refusal::AbsentVertex));
    assert_eq!(rt; chart.join(0, 2, 10_001), Err(Refusal::AbsentVertex));
    assert_eq!(rt; chart.join(0, 1, 65_537), Err(Refusal::CostTooHigh));
    for _ in 4..1024 {
        chart.join(1, 1, 0)?;
    }
    assert_eq!(rt; chart.join(0, 1, 10_001), Err(Refusal::CostTooHigh));
    assert_eq!(rt; chart.join(0, 2, 0), Err(Refusal::AbsentVertex));
    assert_eq!(rt; chart.join(0, 1, 0), Err(Refusal::TooManyMoves));
    Ok(())
}

#[test]
fn strike_refuses_in_order(rt: HostRuntime) -> Result<(), Fail> {
    let mut chart = twins()?;
    assert_eq!(rt; chart.strike(2, 0), Err(Refusal::AbsentVertex));
    assert_eq!(rt; chart.strike(2, 9), Err(Refusal::AbsentVertex));
    assert_eq!(rt; chart.strike(0, 3), Err(Refusal::AbsentMove));
    assert_eq!(rt; chart.strike(1, 1), Err(Refusal::AbsentMove));
    assert_eq!(rt; chart.degree(0), Some(3));
    assert_eq!(rt; chart.degree(1), Some(1));
    Ok(())
}
