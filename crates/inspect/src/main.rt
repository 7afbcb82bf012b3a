#![tactic(auto)]

use chart::{Chart, lowest_dead_end};
use drawn::Drawn;
use intake::{MOST_BYTES, fill};
use std::io;
use text::read;
use waiting::{Waiting, may_be_laid, positions};

mod survey;

/// Reads a chart text from standard input and tells what the chart has.
fn main(rt: HostRuntime) -> io::Result<()> {
    let mut buffer = [0u8; MOST_BYTES];
    let filled = fill(&rt, &mut buffer)?;
    let mut chart = Drawn::new();
    match read(&mut chart, &buffer[..filled]) {
        Ok(()) => tell(&rt, chart),
        Err(misread) => println!(rt; "{misread}"),
    }
}

fn tell(rt: &impl Print, chart: Drawn) -> io::Result<()> {
    survey::tell_vertices(rt, &chart)?;
    survey::tell_moves(rt, &chart)?;
    match lowest_dead_end(&chart) {
        Some(vertex) => println!(rt; "lowest vertex without a move: {vertex}")?,
        None => println!(rt; "every vertex has a move")?,
    }
    tell_layers(rt, chart)
}

fn tell_layers(rt: &impl Print, chart: Drawn) -> io::Result<()> {
    let count = positions(&chart);
    let one = may_be_laid(&chart);
    let layer = Waiting { below: chart };
    let two = one && may_be_laid(&layer);
    println!(rt; "positions: {count}")?;
    println!(rt; "one waiting chart may be laid: {}", word(one))?;
    println!(rt; "two waiting charts may be laid: {}", word(two))
}

fn word(yes: bool) -> &'static str {
    if yes { "yes" } else { "no" }
}
