// Voyages on small charts, with their records computed by hand.
use super::charts::{
    answered_at_once, answered_or_put_off, harbour_lingers_free, lower_request_waits_longer,
};
use super::crew::{Crew, told, voyage};
use chart::Refusal;
use helm::{begin, finish};
use std::test::Fail;

#[test]
fn every_request_is_answered_at_the_next_move(rt: HostRuntime) -> Result<(), Fail> {
    let chart = answered_at_once()?;
    let plan = [0, 0];
    assert_eq!(rt; voyage(&chart, &plan, 0, &[])?, told(0, 0, 1));
    assert_eq!(rt; voyage(&chart, &plan, 0, &[0])?, told(1, 3, 0));
    assert_eq!(rt; voyage(&chart, &plan, 0, &[0, 0])?, told(2, 3, 1));
    assert_eq!(rt; voyage(&chart, &plan, 0, &[0; 5])?, told(5, 3, 0));
    assert_eq!(rt; voyage(&chart, &plan, 1, &[0])?, told(1, 0, 1));
    Ok(())
}

#[test]
fn the_harbour_lingers_and_goes_on(rt: HostRuntime) -> Result<(), Fail> {
    let chart = harbour_lingers_free()?;
    let plan = [0, 65535, 0];
    assert_eq!(rt; voyage(&chart, &plan, 0, &[0])?, told(1, 1, 1));
    assert_eq!(rt; voyage(&chart, &plan, 0, &[0, 0, 0])?, told(3, 1, 1));
    assert_eq!(rt; voyage(&chart, &plan, 0, &[0, 0, 0, 1])?, told(4, 3, 0));
    assert_eq!(rt; voyage(&chart, &plan, 0, &[0, 0, 0, 1, 0])?, told(5, 3, 1));
    Ok(())
}

#[test]
fn refused_calls_leave_the_voyage(rt: HostRuntime) -> Result<(), Fail> {
    let chart = harbour_lingers_free()?;
    let plan = [0, 65535, 0];
    assert_eq!(rt; voyage(&chart, &plan, 0, &[0, 2, 9, 1])?, told(2, 3, 0));
    assert_eq!(rt; voyage(&chart, &[1, 0, 0], 0, &[0, 0, 0])?, told(0, 0, 1));
    Ok(())
}

#[test]
fn a_plan_answers_or_puts_off(rt: HostRuntime) -> Result<(), Fail> {
    let chart = answered_or_put_off()?;
    let answers = [65535, 0, 0];
    assert_eq!(rt; voyage(&chart, &answers, 0, &[0])?, told(1, 0, 0));
    assert_eq!(rt; voyage(&chart, &answers, 0, &[0, 1])?, told(2, 0, 1));
    assert_eq!(rt; voyage(&chart, &answers, 0, &[0, 1, 0])?, told(3, 7, 0));
    assert_eq!(rt; voyage(&chart, &answers, 0, &[0, 1, 0, 0])?, told(4, 7, 0));
    let puts_off = [65535, 1, 0];
    assert_eq!(rt; voyage(&chart, &puts_off, 0, &[1, 0])?, told(2, 5, 1));
    assert_eq!(rt; voyage(&chart, &puts_off, 0, &[1, 0, 0])?, told(3, 10, 1));
    assert_eq!(rt;
        voyage(&chart, &puts_off, 0, &[1, 0, 1, 0, 1])?,
        told(5, 10, 1)
    );
    Ok(())
}

#[test]
fn the_oldest_wait_of_each_colour_counts(rt: HostRuntime) -> Result<(), Fail> {
    let chart = lower_request_waits_longer()?;
    let plan = [0; 4];
    assert_eq!(rt; voyage(&chart, &plan, 0, &[0])?, told(1, 10, 3));
    assert_eq!(rt; voyage(&chart, &plan, 0, &[0, 0])?, told(2, 11, 3));
    assert_eq!(rt; voyage(&chart, &plan, 0, &[0, 0, 0])?, told(3, 11, 0));
    assert_eq!(rt; voyage(&chart, &plan, 1, &[0, 0])?, told(2, 2, 0));
    Ok(())
}

/// The vertices where a voyage begins and stands after each of two calls.
fn stations(numbers: [usize; 2]) -> Result<[usize; 3], Refusal> {
    let chart = harbour_lingers_free()?;
    let plan = [0, 65535, 0];
    let mut tally = [0; 4];
    let (turn, slip) = begin(&chart, &[1; 3], &mut tally, 0)?;
    let crew = Crew {
        chart: &chart,
        plan: &plan,
    };
    let first = turn.vertex();
    let turn = crew.call(turn, numbers[0], &mut tally);
    let second = turn.vertex();
    let turn = crew.call(turn, numbers[1], &mut tally);
    let third = turn.vertex();
    finish(turn, slip);
    Ok([first, second, third])
}

#[test]
fn a_turn_tells_its_vertex(rt: HostRuntime) -> Result<(), Fail> {
    assert_eq!(rt; stations([0, 0])?, [0, 1, 1]);
    assert_eq!(rt; stations([0, 1])?, [0, 1, 2]);
    assert_eq!(rt; stations([0, 2])?, [0, 1, 1]);
    Ok(())
}
