// Every refusal, in its order, and what it leaves.
use super::charts::{answered_at_once, answered_or_put_off};
use super::crew::{refused_call, told};
use chart::Refusal;
use drawn::Drawn;
use helm::{Record, begin, finish};
use std::test::Fail;

/// What begin refuses at a start, on a chart of two vertices.
fn begun(marks: &[u8], tally: &mut [u64], start: usize) -> Result<Option<Refusal>, Refusal> {
    let chart = answered_at_once()?;
    let voyage = begin(&chart, marks, tally, start);
    Ok(voyage.map(|(turn, slip)| finish(turn, slip)).err())
}

#[test]
fn begin_refuses_short_tables_first(rt: HostRuntime) -> Result<(), Fail> {
    let mut tally = [7; 6];
    let mut short = [7; 3];
    assert_eq!(rt; begun(&[1], &mut tally, 0)?, Some(Refusal::ShortTable));
    assert_eq!(rt; begun(&[1, 1], &mut short, 0)?, Some(Refusal::ShortTable));
    assert_eq!(rt; begun(&[0], &mut tally, 5)?, Some(Refusal::ShortTable));
    assert_eq!(rt;
        begun(&[1, 0], &mut tally, 2)?,
        Some(Refusal::UnmarkedStart)
    );
    assert_eq!(rt;
        begun(&[1, 0, 1], &mut tally, 2)?,
        Some(Refusal::UnmarkedStart)
    );
    assert_eq!(rt;
        begun(&[1, 0], &mut tally, 1)?,
        Some(Refusal::UnmarkedStart)
    );
    assert_eq!(rt;
        begun(&[2, 1], &mut tally, 0)?,
        Some(Refusal::UnmarkedStart)
    );
    assert_eq!(rt; short, [7; 3]);
    assert_eq!(rt; tally, [7; 6]);
    Ok(())
}

#[test]
fn begin_clears_the_used_entries_only(rt: HostRuntime) -> Result<(), Fail> {
    let mut tally = [7; 6];
    assert_eq!(rt; begun(&[1, 0], &mut tally, 0)?, None);
    assert_eq!(rt; tally, [1, 0, 0, 0, 7, 7]);
    assert_eq!(rt; begun(&[0, 1], &mut tally, 1)?, None);
    assert_eq!(rt; tally, [0, 0, 0, 0, 7, 7]);
    Ok(())
}

fn unmoved(waiting: u8) -> Record {
    told(0, 0, waiting)
}

#[test]
fn steer_refuses_in_its_order(rt: HostRuntime) -> Result<(), Fail> {
    let chart = answered_at_once()?;
    let blank = Drawn::new();
    let mut tally = [5; 4];
    let mut short = [5; 3];
    let (refusal, record) = refused_call(&chart, &blank, &[], &mut short, 0)?;
    assert_eq!(rt; refusal, Some(Refusal::AbsentVertex));
    assert_eq!(rt; record, unmoved(1));
    let (refusal, _) = refused_call(&chart, &chart, &[9], &mut tally, 0)?;
    assert_eq!(rt; refusal, Some(Refusal::ShortTable));
    let (refusal, _) = refused_call(&chart, &chart, &[9, 9], &mut short, 0)?;
    assert_eq!(rt; refusal, Some(Refusal::ShortTable));
    let (refusal, record) = refused_call(&chart, &chart, &[1, 0], &mut tally, 0)?;
    assert_eq!(rt; refusal, Some(Refusal::WrongPlanEntry(0)));
    assert_eq!(rt; record, unmoved(1));
    assert_eq!(rt; short, [5; 3]);
    assert_eq!(rt; tally, [5; 4]);
    Ok(())
}

#[test]
fn hear_refuses_in_its_order(rt: HostRuntime) -> Result<(), Fail> {
    let chart = answered_or_put_off()?;
    let blank = Drawn::new();
    let mut tally = [5; 4];
    let mut short = [5; 3];
    let (refusal, record) = refused_call(&chart, &blank, &[], &mut short, 9)?;
    assert_eq!(rt; refusal, Some(Refusal::AbsentVertex));
    assert_eq!(rt; record, unmoved(0));
    let (refusal, _) = refused_call(&chart, &chart, &[], &mut short, 9)?;
    assert_eq!(rt; refusal, Some(Refusal::ShortTable));
    let (refusal, record) = refused_call(&chart, &chart, &[], &mut tally, 2)?;
    assert_eq!(rt; refusal, Some(Refusal::AbsentMove));
    assert_eq!(rt; record, unmoved(0));
    assert_eq!(rt; short, [5; 3]);
    assert_eq!(rt; tally, [5; 4]);
    Ok(())
}

/// The harbour owns vertex 0 here, and it is ours elsewhere: neither call asks.
#[test]
fn no_call_asks_who_owns_the_vertex(rt: HostRuntime) -> Result<(), Fail> {
    let ours = answered_at_once()?;
    let theirs = answered_or_put_off()?;
    let mut tally = [1, 0, 0, 0];
    let (refusal, record) = refused_call(&ours, &theirs, &[0, 0, 0], &mut tally, 0)?;
    assert_eq!(rt; refusal, None);
    assert_eq!(rt; record, told(1, 5, 1));
    assert_eq!(rt; tally, [6, 0, 0, 0]);
    Ok(())
}

#[test]
fn numbers_and_places(rt: HostRuntime) {
    assert_eq!(rt; Refusal::ShortTable.number(), 10);
    assert_eq!(rt; Refusal::WrongPlanEntry(0).number(), 13);
    assert_eq!(rt; Refusal::WrongPlanEntry(0).place(), 0);
    assert_eq!(rt; Refusal::UnmarkedStart.number(), 21);
    assert_eq!(rt; Refusal::TooManySteps.number(), 22);
}
