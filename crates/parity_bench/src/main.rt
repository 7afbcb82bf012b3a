#![tactic(auto)]

use parity::solver::solve;
use parity_games::{FAMILIES, Family, GameTables, MOST, Plan, Room};
use std::time::Instant;
use std::{env, io};

/// Solves the game of the plan, and prints what player 0 wins, with the time taken if it is asked
/// for.
fn measure(rt: &HostRuntime, plan: &Plan, tables: GameTables<'_>, timed: bool) -> io::Result<()> {
    let game = plan.lay(tables);
    let mut winners = [7; MOST];
    let mut moves = [7; MOST];
    let mut memory = [7; 8 * MOST];
    let start = Instant::now(rt)?;
    let solved = solve(&game, &mut winners, &mut moves, &mut memory).is_ok();
    let micros = start.elapsed(rt)?.as_micros();
    let family = plan.family;
    let order = if plan.shuffled {
        "shuffled"
    } else {
        "in order"
    };
    let size = game.owners.len();
    if !solved {
        return println!(rt; "{family:?}, {order}: {size} positions, refused");
    }
    let moves_laid = game.targets.len();
    let won = winners
        .iter()
        .take(size)
        .filter(|winner| **winner == 0)
        .count();
    // A line is written whole.
    if timed {
        println!(rt;
            "{family:?}, {order}: {size} positions, {moves_laid} moves, player 0 wins {won}, {micros} microseconds"
        )
    } else {
        println!(rt;
            "{family:?}, {order}: {size} positions, {moves_laid} moves, player 0 wins {won}"
        )
    }
}

/// Measures one game, unless it has more positions than there is room for.
fn bench(rt: &HostRuntime, plan: &Plan, timed: bool) -> io::Result<()> {
    let mut room = Room::EMPTY;
    match room.tables(plan.size) {
        Some(tables) => measure(rt, plan, tables, timed),
        None => Ok(()),
    }
}

fn main(rt: HostRuntime) -> io::Result<()> {
    let timed = env::args(&rt)?.count() > 1;
    for family in FAMILIES {
        for size in [512, 1024, 2048, 4096] {
            for shuffled in [false, true] {
                let plan = Plan {
                    shuffled,
                    ..Plan::new(family, size)
                };
                bench(&rt, &plan, timed)?;
            }
        }
    }
    for size in [20, 40, 60, 80] {
        bench(&rt, &Plan::new(Family::Nest, size), timed)?;
    }
    Ok(())
}
