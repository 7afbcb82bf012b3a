ghost use Rattle.std.specs.Prelude.{◌≡◌, ◌+◌, ◌-◌, ◌<◌, ◌≤◌, length, take};
ghost use Rattle.std.specs.List.{insert, remove};
ghost use Rattle.drawn.specs.Rows.{total, laid_out, with_degree};
ghost use Rattle.drawn.specs.Rules.{adjusted};

use super::limits::{MOST_MOVES, MOST_VERTICES};
use super::row::Row;
use chart::Move;

/// The first `used` moves with one more at `at`: those from there on go up by one.
pub(crate) fn with_move(
    mut moves: [Move; MOST_MOVES],
    used: usize,
    at: usize,
    one: Move,
) -> [Move; MOST_MOVES]
    requires within { at ≤ used }
    requires room { used < 1024 }
    ensures front { take (used + 1) result ≡ insert (take used moves) at one }
    ensures len { length result ≡ 1024 }
{
    moves[used] = one;
    moves[at..used + 1].rotate_right(1);
    moves
}

/// The first `used` moves without the one at `at`: those behind it go down by one.
pub(crate) fn without_move(
    mut moves: [Move; MOST_MOVES],
    used: usize,
    at: usize,
) -> [Move; MOST_MOVES]
    requires within { at < used }
    requires few { used ≤ 1024 }
    ensures front { take (used - 1) result ≡ remove (take used moves) at }
    ensures len { length result ≡ 1024 }
{
    moves[at..used].rotate_left(1);
    moves
}

/// Has the moves of each row start where those of the row before it end.
fn lay_out(rows: &mut [Row])
    requires { total rows.old ≤ 1024 }
    ensures { rows.new ≡ laid_out 0 rows.old }
{
    let mut next = 0;
    for row in rows.iter_mut() {
        row.start = next;
        next += row.degree;
    }
}

/// The first `count` rows where one vertex has another number of moves.
pub(crate) fn resized(
    mut rows: [Row; MOST_VERTICES],
    count: usize,
    vertex: usize,
    degree: usize,
) -> [Row; MOST_VERTICES]
    requires within { vertex < count }
    requires room { count ≤ 128 }
    requires few { total (adjusted (with_degree degree) (take count rows) vertex) ≤ 1024 }
    ensures front { take count result ≡ laid_out 0 (adjusted (with_degree degree) (take count rows) vertex) }
    ensures len { length result ≡ 128 }
{
    rows[vertex].degree = degree;
    lay_out(&mut rows[0..count]);
    rows
}
