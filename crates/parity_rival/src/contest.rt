ghost use Rattle.std.specs.Prelude.{◌≤◌};

use super::fixpoint::rival;
use super::judge::{Search, Verdict};
use parity::ParityGame;
use parity::rows::Rows;
use parity::solver::solve;
use parity_games::{MOST, Plan, Room};

/// Whether the rival, in so many steps, finds the same winners of a game of at most N positions.
fn confirms<G: ParityGame, const N: usize>(game: &G, winners: &[u32; N], steps: usize) -> bool {
    let mut second = [7; N];
    rival(game, &mut second, steps)
        && winners
            .iter()
            .zip(&second)
            .take(game.size())
            .all(|(first, second)| first == second)
}

/// Whether a game of at most N positions is solved, each player keeps its half by the moves given,
/// and the rival, where it is given steps, finds the same winners.
fn agrees<G: ParityGame, const N: usize>(game: &G, steps: Option<usize>) -> bool
    requires { N ≤ 65536 }
{
    let mut winners = [7; N];
    let mut moves = [7; N];
    let mut memory = [[7; 8]; N];
    if solve(game, &mut winners, &mut moves, memory.as_flattened_mut()).is_err() {
        return false;
    }
    let verdict = Verdict {
        game,
        winners: &winners,
        moves: &moves,
    };
    verdict.kept(&mut Search::<N>::new())
        && steps.is_none_or(|steps| confirms(game, &winners, steps))
}

/// Whether the two solvers agree on a game of a family, of at most 4,096 positions.
pub fn family_agrees(plan: &Plan, steps: Option<usize>) -> bool {
    let mut room = Room::EMPTY;
    match room.tables(plan.size) {
        Some(tables) => agrees::<_, MOST>(&plan.lay(tables), steps),
        None => false,
    }
}

/// The games of three positions, five colours and any moves are numbered below this.
pub const THREES: u64 = 343_000;

/// An end of a move: the first member of the subset from a place on.
fn member(subset: u64, from: u64) -> u32 {
    (0..3)
        .map(|step| (from % 3 + step) % 3)
        .find(|end| (subset >> end) % 2 == 1)
        .unwrap_or(0) as u32
}

/// The tables of a game of three positions with three moves each.
#[derive(Drop)]
struct Three {
    owners: [u8; 3],
    colours: [u8; 3],
    targets: [[u32; 3]; 3],
}

impl Three {
    /// The game that has the number: each position has one of 70 kinds, by its owner, its colour and
    /// the subset of positions that its moves lead to.
    fn new(code: u64) -> Three {
        let kinds = [code % 70, code / 70 % 70, code / 4900 % 70];
        Three {
            owners: kinds.map(|kind| (kind % 2) as u8),
            colours: kinds.map(|kind| (kind / 2 % 5) as u8),
            targets: kinds.map(|kind| [0, 1, 2].map(|from| member(kind / 10 + 1, from))),
        }
    }

    fn rows(&self) -> Rows<'_> {
        Rows {
            owners: &self.owners,
            colours: &self.colours,
            starts: &[0, 3, 6, 9],
            targets: self.targets.as_flattened(),
        }
    }
}

/// Whether the two solvers agree on the game of three positions that has the number.
pub fn three_agrees(code: u64) -> bool {
    agrees::<_, 3>(&Three::new(code).rows(), Some(1000))
}
