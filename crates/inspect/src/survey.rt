use chart::{Chart, Player};
use drawn::Drawn;
use std::io;

/// How many vertices there are, whose they are, and their colours.
pub fn tell_vertices(rt: &impl Print, chart: &Drawn) -> io::Result<()> {
    let size = chart.size();
    let harbour = owned_by_harbour(chart);
    println!(rt; "vertices: {size}")?;
    println!(rt; "of the controller: {}", size.saturating_sub(harbour))?;
    println!(rt; "of the harbour: {harbour}")?;
    tell_colours(rt, chart)
}

/// How many moves there are, and what the dearest costs.
pub fn tell_moves(rt: &impl Print, chart: &Drawn) -> io::Result<()> {
    let count = chart.move_count();
    println!(rt; "moves: {count}")?;
    println!(rt; "dearest move: {}", dearest(chart))
}

fn owned_by_harbour(chart: &Drawn) -> usize {
    (0..chart.size())
        .filter(|vertex| chart.owner(*vertex) == Some(Player::Harbour))
        .count()
}

fn tell_colours(rt: &impl Print, chart: &Drawn) -> io::Result<()> {
    print!(rt; "colours:")?;
    for colour in 0..=chart.height() {
        if has_colour(chart, colour) {
            print!(rt; " {colour}")?;
        }
    }
    println!(rt; "")
}

fn has_colour(chart: &Drawn, colour: u8) -> bool {
    (0..chart.size()).any(|vertex| chart.colour(vertex) == Some(colour))
}

fn dearest(chart: &Drawn) -> u32 {
    (0..chart.size())
        .map(|vertex| dearest_from(chart, vertex))
        .max()
        .unwrap_or(0)
}

/// What the dearest move of a vertex costs, 0 where it has none.
fn dearest_from(chart: &Drawn, vertex: usize) -> u32 {
    (0..chart.degree(vertex).unwrap_or(0))
        .filter_map(|number| chart.move_at(vertex, number))
        .map(|step| step.cost)
        .max()
        .unwrap_or(0)
}
