ghost use Rattle.std.specs.Prelude.{◌≡◌, ◌≤◌, true, IsTrue, All, length, take};
ghost use Rattle.drawn.specs.Rows.{laid, row_ranged, move_ranged};

use super::limits::{MOST_MOVES, MOST_VERTICES};
use super::row::Row;
use chart::Move;

/// A chart that is drawn vertex by vertex and move by move: height 8, at
/// most 128 vertices and 1,024 moves, vertices named by their numbers.
#[derive(Drop)]
pub struct Drawn {
    pub(crate) count: usize,
    pub(crate) used: usize,
    pub(crate) rows: [Row; MOST_VERTICES],
    pub(crate) moves: [Move; MOST_MOVES],
    ghost wide: { length rows ≡ 128 },
    ghost long: { length moves ≡ 1024 },
    ghost room: { count ≤ 128 },
    ghost few: { used ≤ 1024 },
    ghost ordered: { laid 0 (take count rows) used ≡ true },
    ghost tinted: { All (λ r. IsTrue (row_ranged r)) (take count rows) },
    ghost ranged: { All (λ m. IsTrue (move_ranged count m)) (take used moves) },
}
