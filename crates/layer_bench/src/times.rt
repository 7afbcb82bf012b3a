use super::asks::{in_order, in_turn};
use super::question::Question;
use super::tally::Tally;
use chart::Chart;
use std::io;
use std::rt::Clock;
use std::time::Instant;

/// The time of one question in picoseconds, where all are asked in order: the best of 7.
pub fn time_in_order<Q: Question, C: Chart>(rt: &impl Clock, chart: &C) -> io::Result<u128> {
    let rounds = 1_000_000u32.checked_div(chart.size() as u32).unwrap_or(0);
    best_of_7::<Q, _>(rt, || in_order::<Q, C>(chart, rounds))
}

/// The time of one question in picoseconds, where each waits for the answer before: the best of 7.
pub fn time_in_turn<Q: Question, C: Chart>(rt: &impl Clock, chart: &C) -> io::Result<u128> {
    best_of_7::<Q, _>(rt, || in_turn::<Q, C>(chart, 1_000_000))
}

fn best_of_7<Q: Question, F: Fn() -> Tally>(rt: &impl Clock, asks: F) -> io::Result<u128>
    requires { F.IsAlwaysCallable asks }
{
    let mut best = u128::MAX;
    for _ in 0..7 {
        let start = Instant::now(rt)?;
        let tally = asks();
        let taken = start.elapsed(rt)?;
        best = best.min(shared_out::<Q>(taken.as_nanos(), tally));
    }
    Ok(best)
}

/// A time for each answer. The sum has a part in it, so that every answer is worked out.
fn shared_out<Q: Question>(nanos: u128, tally: Tally) -> u128 {
    let odd = (tally.sum % 2) as u128;
    nanos
        .saturating_add(odd)
        .saturating_mul(1000)
        .checked_div((tally.asked as u128).saturating_mul(Q::PARTS))
        .unwrap_or(0)
}
