use super::question::Question;
use super::tally::Tally;
use chart::Chart;

/// Asks the question of every vertex, or of every move, in order.
pub fn in_order<Q: Question, C: Chart>(chart: &C, rounds: u32) -> Tally {
    let mut tally = Tally::default();
    for _ in 0..rounds {
        for vertex in 0..chart.size() {
            for number in 0..Q::times_at(chart, vertex) {
                if let Some(said) = Q::ask(chart, vertex, number) {
                    tally.add(said);
                }
            }
        }
    }
    tally
}

/// Asks so often, each time of a vertex that the answer before decides.
pub fn in_turn<Q: Question, C: Chart>(chart: &C, times: u32) -> Tally {
    let mut tally = Tally::default();
    let size = chart.size();
    let mut vertex = 0;
    for turn in 0..times {
        if let Some(said) = first_or::<Q, C>(chart, vertex, turn as usize % 8) {
            tally.add(said);
            vertex = Q::next(size, vertex, said);
        }
    }
    tally
}

/// Asks about the number, or about 0 where there is nothing of that number, as at a toll.
fn first_or<Q: Question, C: Chart>(chart: &C, vertex: usize, number: usize) -> Option<usize> {
    Q::ask(chart, vertex, number).or_else(|| Q::ask(chart, vertex, 0))
}
