ghost use Rattle.std.specs.Prelude.{◌≡◌};
ghost use Rattle.chart.specs.DeadEnds.{lowest_dead_end};

use super::Chart;

/// The lowest vertex that no move leaves, or none.
pub fn lowest_dead_end<C: Chart>(chart: &C) -> Option<usize>
    ensures { result ≡ lowest_dead_end (C.Chart.meaning chart.now) }
{
    // A loop, not `find`: a closure that asks the chart would need a contract of its own.
    for vertex in 0..chart.size() {
        if chart.degree(vertex)? == 0 {
            return Some(vertex);
        }
    }
    None
}
