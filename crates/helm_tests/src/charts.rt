// Small charts; t/c is a move to vertex t at cost c, and vertices are ours unless said.
use chart::Refusal;
use drawn::Drawn;

/// A chart of these vertices, each by its owner and its colour, and these moves, each by the
/// vertex that it leaves, its target and its cost.
fn chart_of(vertices: &[(u32, u32)], moves: &[(usize, usize, u32)]) -> Result<Drawn, Refusal> {
    let mut chart = Drawn::new();
    for (owner, colour) in vertices {
        chart.place(*owner, *colour)?;
    }
    for (vertex, target, cost) in moves {
        chart.join(*vertex, *target, *cost)?;
    }
    Ok(chart)
}

/// Every request is answered at the next move: 0 of colour 1 has 1/3, 1 of colour 2 has 0/4.
pub fn answered_at_once() -> Result<Drawn, Refusal> {
    chart_of(&[(0, 1), (0, 2)], &[(0, 1, 3), (1, 0, 4)])
}

/// The harbour may linger, but only where it costs nothing: 0 of colour 1 has 1/1, the
/// harbour's 1 of colour 0 has 1/0 and 2/2, 2 of colour 2 has 0/0.
pub fn harbour_lingers_free() -> Result<Drawn, Refusal> {
    chart_of(
        &[(0, 1), (1, 0), (0, 2)],
        &[(0, 1, 1), (1, 1, 0), (1, 2, 2), (2, 0, 0)],
    )
}

/// A plan can answer or put off: the harbour's 0 of colour 0 has 0/5 and 1/0, 1 of
/// colour 1 has 2/7 and 0/5, 2 of colour 2 has 0/5.
pub fn answered_or_put_off() -> Result<Drawn, Refusal> {
    chart_of(
        &[(1, 0), (0, 1), (0, 2)],
        &[(0, 0, 5), (0, 1, 0), (1, 2, 7), (1, 0, 5), (2, 0, 5)],
    )
}

/// A lower request waits longer than the highest: 0 of colour 1 has 1/10, 1 of colour 3
/// has 2/1, 2 of colour 2 has 3/1, 3 of colour 4 has 0/0.
pub fn lower_request_waits_longer() -> Result<Drawn, Refusal> {
    chart_of(
        &[(0, 1), (0, 3), (0, 2), (0, 4)],
        &[(0, 1, 10), (1, 2, 1), (2, 3, 1), (3, 0, 0)],
    )
}

/// One vertex of that owner and of colour 1, with a move to itself at the greatest cost.
pub fn endless_wait(owner: u32) -> Result<Drawn, Refusal> {
    chart_of(&[(owner, 1)], &[(0, 0, 10_000)])
}
