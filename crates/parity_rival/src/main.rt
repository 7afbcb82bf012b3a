#![tactic(auto)]

use contest::{THREES, family_agrees, three_agrees};
use parity_games::{FAMILIES, Family, Plan};
use std::io;

mod contest;
mod fixpoint;
mod judge;

/// The steps that the rival is given, enough for it to come to an end.
const STEPS: Option<usize> = Some(1_000_000);

/// How many of the games of three positions agree.
fn threes() -> usize {
    (0..THREES).filter(|code| three_agrees(*code)).count()
}

/// How many games agree of those that the plan gives for each number below the bound.
fn agreeing<F: Fn(u64) -> Plan>(numbers: u64, steps: Option<usize>, plan: F) -> usize
    requires { F.IsAlwaysCallable plan }
{
    (0..numbers)
        .filter(|number| family_agrees(&plan(*number), steps))
        .count()
}

/// How many random games of a few positions and the number of colours agree, one for each seed.
fn few(size: u64, colours: u8, seeds: u64) -> usize {
    let plan = |seed: u64| Plan {
        colours,
        seed,
        ..Plan::new(Family::Random, size)
    };
    agreeing(seeds, STEPS, plan)
}

/// How many games of all families agree, plain and shuffled, one for each seed.
fn families(size: u64, colours: u8, seeds: u64, steps: Option<usize>) -> usize {
    FAMILIES
        .into_iter()
        .map(|family| {
            let plan = |seed: u64| Plan {
                colours,
                seed,
                shuffled: seed % 2 == 1,
                ..Plan::new(family, size)
            };
            agreeing(seeds, steps, plan)
        })
        .fold(0, usize::saturating_add)
}

/// How many nests agree, of lengths up to the size.
fn nests(size: u64) -> usize {
    agreeing(size, STEPS, |length| Plan::new(Family::Nest, length))
}

fn main(rt: HostRuntime) -> io::Result<()> {
    let all = threes();
    println!(rt; "3 positions, every game of 5 colours: {all} agree")?;
    let four = few(4, 6, 20_000);
    let six = few(6, 6, 20_000);
    let eight = few(8, 8, 20_000);
    println!(rt; "4, 6 and 8 positions, 20000 each: {four}, {six} and {eight} agree")?;
    let small = families(16, 11, 200, STEPS);
    let some = families(64, 11, 50, STEPS);
    println!(rt; "7 families of 16 and 64 positions, 200 and 50 each: {small} and {some} agree")?;
    let nested = nests(64);
    println!(rt; "nests of 0 to 63 positions: {nested} agree")?;
    let many = families(512, 4, 4, STEPS);
    println!(rt; "7 families of 512 positions and 4 colours, 4 each: {many} agree")?;
    let large = families(4096, 11, 2, None);
    println!(rt; "7 families of 4096 positions, 2 each: both players keep their halves in {large}")
}
