// The most moves, and the greatest 64-bit number.
use super::charts::endless_wait;
use super::crew::{Crew, told};
use chart::{Chart, Refusal};
use helm::{Record, begin, finish};
use std::test::Fail;

/// The refusals of one call more, with one plan entry or number and with another, and the record.
#[derive(Clone, Copy)]
struct Last {
    wrong: Option<Refusal>,
    right: Option<Refusal>,
    record: Record,
}

/// A voyage of so many moves on a chart with one vertex and one move, then a call for a
/// move that is not there, and a call for one that is.
fn last_calls<C: Chart>(chart: &C, moves: usize) -> Result<Last, Refusal> {
    let mut tally = [0; 4];
    let (mut turn, slip) = begin(chart, &[1], &mut tally, 0)?;
    let crew = Crew { chart, plan: &[0] };
    let other = Crew { chart, plan: &[1] };
    for _ in 0..moves {
        turn = crew.call(turn, 0, &mut tally);
    }
    let (wrong, turn) = other.refused(turn, 1, &mut tally);
    let (right, turn) = crew.refused(turn, 0, &mut tally);
    Ok(Last {
        wrong,
        right,
        record: finish(turn, slip),
    })
}

fn endless(moves: u32, worst: u64) -> Record {
    told(moves, worst, 1)
}

#[test]
fn the_millionth_move_is_made(rt: HostRuntime) -> Result<(), Fail> {
    let ours = last_calls(&endless_wait(0)?, 999_999)?;
    assert_eq!(rt; ours.wrong, Some(Refusal::WrongPlanEntry(0)));
    assert_eq!(rt; ours.right, None);
    assert_eq!(rt; ours.record, endless(1_000_000, 10_000_000_000));
    let theirs = last_calls(&endless_wait(1)?, 999_999)?;
    assert_eq!(rt; theirs.wrong, Some(Refusal::AbsentMove));
    assert_eq!(rt; theirs.right, None);
    assert_eq!(rt; theirs.record, endless(1_000_000, 10_000_000_000));
    Ok(())
}

#[test]
fn the_move_after_the_millionth_is_refused(rt: HostRuntime) -> Result<(), Fail> {
    let ours = last_calls(&endless_wait(0)?, 1_000_000)?;
    assert_eq!(rt; ours.wrong, Some(Refusal::WrongPlanEntry(0)));
    assert_eq!(rt; ours.right, Some(Refusal::TooManySteps));
    assert_eq!(rt; ours.record, endless(1_000_000, 10_000_000_000));
    let theirs = last_calls(&endless_wait(1)?, 1_000_000)?;
    assert_eq!(rt; theirs.wrong, Some(Refusal::AbsentMove));
    assert_eq!(rt; theirs.right, Some(Refusal::TooManySteps));
    assert_eq!(rt; theirs.record, endless(1_000_000, 10_000_000_000));
    Ok(())
}

/// The record after two moves of 10,000, where the first entry is set between them, and the tally.
fn handed_in(entry: u64) -> Result<(Record, [u64; 4]), Refusal> {
    let chart = endless_wait(0)?;
    let mut tally = [0; 4];
    let (turn, slip) = begin(&chart, &[1], &mut tally, 0)?;
    let crew = Crew {
        chart: &chart,
        plan: &[0],
    };
    let turn = crew.call(turn, 0, &mut tally);
    tally[0] = entry;
    let turn = crew.call(turn, 0, &mut tally);
    Ok((finish(turn, slip), tally))
}

#[test]
fn sums_stop_at_the_greatest_number(rt: HostRuntime) -> Result<(), Fail> {
    let (record, tally) = handed_in(u64::MAX - 10_001)?;
    assert_eq!(rt; record, endless(2, u64::MAX - 2));
    assert_eq!(rt; tally, [u64::MAX - 1, 0, 0, 0]);
    let (record, tally) = handed_in(u64::MAX - 10_000)?;
    assert_eq!(rt; record, endless(2, u64::MAX - 1));
    assert_eq!(rt; tally, [u64::MAX, 0, 0, 0]);
    let (record, tally) = handed_in(u64::MAX - 9_999)?;
    assert_eq!(rt; record, endless(2, u64::MAX - 1));
    assert_eq!(rt; tally, [u64::MAX, 0, 0, 0]);
    let (record, tally) = handed_in(u64::MAX)?;
    assert_eq!(rt; record, endless(2, u64::MAX - 1));
    assert_eq!(rt; tally, [u64::MAX, 0, 0, 0]);
    Ok(())
}

#[test]
fn an_entry_cleared_from_outside_opens_again(rt: HostRuntime) -> Result<(), Fail> {
    let (record, tally) = handed_in(0)?;
    assert_eq!(rt; record, endless(2, 10_000));
    assert_eq!(rt; tally, [1, 0, 0, 0]);
    Ok(())
}
