#![tactic(auto)]

use anyhow::Context;
use crew::Crew;
use drawn::Drawn;
use drawn::limits::MOST_VERTICES;
use helm::{begin, finish};
use intake::{MOST_BYTES, fill};
use orders::Orders;
use std::env;
use text::read;

mod crew;
mod orders;

/// Makes the voyage that a file of orders tells, on the chart that standard
/// input has, and prints each turn and the record of the voyage.
fn main(rt: HostRuntime) -> anyhow::Result<()> {
    run(&rt)
}

fn run(rt: &HostRuntime) -> anyhow::Result<()> {
    let mut buffer = [0u8; MOST_BYTES];
    let filled = fill(rt, &mut buffer)?;
    let mut chart = Drawn::new();
    match read(&mut chart, &buffer[..filled]) {
        Ok(()) => sail(rt, &chart),
        Err(misread) => {
            println!(rt; "{misread}")?;
            Ok(())
        }
    }
}

fn sail(rt: &HostRuntime, chart: &Drawn) -> anyhow::Result<()> {
    let path = env::args(rt)?.nth(1).context("name a file of orders")?;
    let mut orders = Orders::open(rt, path.as_str())?;
    let start = orders.start()?;
    let plan = orders.plan()?;
    let marks = [1u8; MOST_VERTICES];
    let mut tally = [0u64; 4];
    match begin(chart, &marks, &mut tally, start) {
        Ok((turn, slip)) => {
            let mut crew = Crew {
                rt,
                chart,
                plan,
                tally,
            };
            let begun = crew.tell(&turn);
            let (turn, told) = crew.make_calls(turn, &mut orders);
            let record = finish(turn, slip);
            begun?;
            told?;
            println!(rt; "moves={}", record.moves)?;
            println!(rt; "worst={}", record.worst)?;
            println!(rt; "waiting={}", record.waiting)?;
            Ok(())
        }
        Err(refusal) => {
            println!(rt; "{refusal}")?;
            Ok(())
        }
    }
}
