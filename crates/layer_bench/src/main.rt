#![tactic(auto)]

use asks::{in_order, in_turn};
use chart::Chart;
use drawn::Drawn;
use question::{Colour, Degree, Name, Owner, Question, Size, Step};
use std::rt::Clock;
use std::{env, io};
use times::{time_in_order, time_in_turn};
use waiting::Waiting;

mod asks;
mod question;
mod tally;
mod times;

/// Asks every question of a drawn chart of 34 vertices and 1,024 moves, of the waiting chart over
/// it, and of the waiting chart over that. Prints how many answers came and their sums; with the
/// argument `time`, how long a question took.
fn main(rt: HostRuntime) -> io::Result<()> {
    let timing = timing(&rt)?;
    let drawn = full_chart();
    let one = Waiting {
        below: full_chart(),
    };
    let two = Waiting {
        below: Waiting {
            below: full_chart(),
        },
    };
    let charts = Charts {
        drawn: &drawn,
        one: &one,
        two: &two,
    };
    put::<Size>(&rt, &charts, timing)?;
    put::<Owner>(&rt, &charts, timing)?;
    put::<Colour>(&rt, &charts, timing)?;
    put::<Degree>(&rt, &charts, timing)?;
    put::<Step>(&rt, &charts, timing)?;
    put::<Name>(&rt, &charts, timing)
}

fn timing(rt: &HostRuntime) -> io::Result<bool> {
    Ok(env::args(rt)?.any(|word| word.as_str() == "time"))
}

/// The charts that are asked, without a layer and under one and two. They are lent: held here, they
/// are copied once more, and the program needs a third more stack.
#[derive(Clone, Copy)]
struct Charts<'a> {
    drawn: &'a Drawn,
    one: &'a Waiting<Drawn>,
    two: &'a Waiting<Waiting<Drawn>>,
}

/// A refusal here would show in what is printed.
fn full_chart() -> Drawn {
    let mut chart = Drawn::new();
    for vertex in 0..34u32 {
        let _ = chart.place(vertex % 2, vertex % 9);
    }
    for number in 0..1024usize {
        let _ = chart.join(number % 34, (number * 7 + 3) % 34, number as u32 % 3);
    }
    chart
}

fn put<Q: Question>(rt: &HostRuntime, charts: &Charts<'_>, timing: bool) -> io::Result<()> {
    if timing {
        return print_times::<Q>(rt, charts);
    }
    print_answers::<Q, _>(rt, charts.drawn)?;
    print_answers::<Q, _>(rt, charts.one)?;
    print_answers::<Q, _>(rt, charts.two)
}

fn print_answers<Q: Question, C: Chart>(rt: &HostRuntime, chart: &C) -> io::Result<()> {
    let all = in_order::<Q, C>(chart, 1);
    let turns = in_turn::<Q, C>(chart, 10_000);
    let word = Q::WORD;
    println!(rt;
        "{word}: {} in order, sum {:x}; {} in turn, sum {:x}",
        all.asked, all.sum, turns.asked, turns.sum
    )
}

fn print_times<Q: Question>(rt: &HostRuntime, charts: &Charts<'_>) -> io::Result<()> {
    let in_order = [
        time_in_order::<Q, _>(rt, charts.drawn)?,
        time_in_order::<Q, _>(rt, charts.one)?,
        time_in_order::<Q, _>(rt, charts.two)?,
    ];
    print_ratio::<Q>(rt, "in order", in_order)?;
    let in_turn = [
        time_in_turn::<Q, _>(rt, charts.drawn)?,
        time_in_turn::<Q, _>(rt, charts.one)?,
        time_in_turn::<Q, _>(rt, charts.two)?,
    ];
    print_ratio::<Q>(rt, "in turn", in_turn)
}

fn print_ratio<Q: Question>(rt: &HostRuntime, way: &str, times: [u128; 3]) -> io::Result<()> {
    let word = Q::WORD;
    let [low, middle, high] = times;
    let ratio = high.saturating_mul(100).checked_div(low).unwrap_or(0);
    let (whole, part) = (ratio / 100, ratio % 100);
    println!(rt;
        "{word} {way}: {low} ps drawn, {middle} ps on one layer, {high} ps on two, ratio {whole}.{part:02}"
    )
}
