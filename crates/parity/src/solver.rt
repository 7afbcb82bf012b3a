ghost use Rattle.std.specs.Prelude.{◌≡◌, ℕ, ◌*◌, ◌<◌, ◌≤◌, length, drop, Ok, Err, slice_index};
ghost use Rattle.chart.specs.Refusals.{outcome};
ghost use Rattle.parity.specs.Promise.{dead_end, verdict, Settled, Sole};

use super::ParityGame;
use super::trail::Trail;
use super::workspace::Workspace;
use chart::refusal::Refusal;

/// The working memory that a game needs, in numbers for each position.
const MEMORY: usize = 8;

/// The lowest position that no move leaves, if there is one.
fn dead_end<G: ParityGame>(game: &G) -> Option<usize>
    ensures { result ≡ dead_end (G.ParityGame.board game.now) }
{
    // A loop, not `find`: a closure that asks the game would need a contract of its own.
    for position in 0..game.size() {
        if game.degree(position) == 0 {
            return Some(position);
        }
    }
    None
}

impl<'a, G: ParityGame> Workspace<'a, G> {
    ghost use Rattle.std.specs.Prelude.{ℕ, ◌<◌};
    ghost use Rattle.parity.specs.Promise.{Settled};
    ghost use Rattle.parity.specs.Workspaces.{board_of, Same};

    /// Solves a game in which every position has a move, whatever the tables hold.
    #[tactic(auto, using(crate::proofs::Settling::few_colours))]
    fn solve_all(&mut self, trail: &mut Trail<'_>)
        requires { (p : ℕ) → p < (board_of self.old).size → 0 < (board_of self.old).game.degree p }
        ensures same { Same self.old self.new }
        ensures settled { Settled (board_of self.old) self.new.winners.now self.new.moves.now }
    {
        self.tags.fill(0);
        let colours = self.highest(1);
        self.solve_region(colours, 2 * colours, trail);
    }
}

/// Solves a game in which every position has a move, in tables of just its size and memory of eight
/// times that.
fn settle<G: ParityGame>(game: &G, winners: &mut [u32], moves: &mut [u32], memory: &mut [u32])
    requires winners_len { length winners.old ≡ (G.ParityGame.board game.now).size }
    requires moves_len { length moves.old ≡ (G.ParityGame.board game.now).size }
    requires enough_memory { 8 * (G.ParityGame.board game.now).size ≤ length memory.old }
    requires no_dead_end { (p : ℕ) → p < (G.ParityGame.board game.now).size → 0 < (G.ParityGame.board game.now).game.degree p }
    ensures { Settled (G.ParityGame.board game.now) winners.new moves.new }
{
    let (tags, rest) = memory.split_at_mut(winners.len());
    let mut trail = Trail::new(game, rest);
    let mut workspace = Workspace {
        game,
        tags,
        winners,
        moves,
    };
    workspace.solve_all(&mut trail);
}

/// Solves the game: writes the winner of each position, and the move that its owner is to play if
/// it is the winner. Each player then keeps what it has won by its moves, and no other winners
/// would do. Refuses a game in which a position has no move, tables with less than one number for
/// each position, and memory with less than eight; a refused call changes neither table, and nothing
/// is written past the positions.
#[tactic(auto, using(crate::proofs::Settling::has_move, crate::proofs::Settling::settled_longer))]
pub fn solve<G: ParityGame>(
    game: &G,
    winners: &mut [u32],
    moves: &mut [u32],
    memory: &mut [u32],
) -> Result<(), Refusal>
    ensures answers { outcome result ≡ verdict (G.ParityGame.board game.now) (length winners.old) (length moves.old) (length memory.old) }
    ensures settles { elim result [
      | Ok _ ↦ Settled (G.ParityGame.board game.now) winners.new moves.new
      | Err _ ↦ (winners.new ≡ winners.old) × (moves.new ≡ moves.old)
    ] }
    ensures alone { elim result [
      | Ok _ ↦ Sole (G.ParityGame.board game.now) winners.new
      | Err _ ↦ Unit {0}
    ] }
    ensures spares { (drop (G.ParityGame.board game.now).size winners.new ≡ drop (G.ParityGame.board game.now).size winners.old)
        × (drop (G.ParityGame.board game.now).size moves.new ≡ drop (G.ParityGame.board game.now).size moves.old) }
{
    if let Some(position) = dead_end(game) {
        return Err(Refusal::DeadEnd(position));
    }
    let size = game.size();
    if winners.len() < size || moves.len() < size {
        return Err(Refusal::ShortTable);
    }
    if memory.len() < MEMORY * size {
        return Err(Refusal::ShortMemory);
    }
    settle(game, &mut winners[0..size], &mut moves[0..size], memory);
    Ok(())
}
