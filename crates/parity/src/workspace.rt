ghost use Rattle.parity.specs.Sheets.{Sized};

use super::ParityGame;

/// What the solver works on: the game, and one number of each table for each of its positions. The
/// tag says which region a position is in, the winner who has won it so far, and the move what its
/// owner is to play.
#[derive(Drop)]
pub(crate) struct Workspace<'a, G: ParityGame> {
    pub(crate) game: &'a G,
    pub(crate) tags: &'a mut [u32],
    pub(crate) winners: &'a mut [u32],
    pub(crate) moves: &'a mut [u32],
    ghost sized: { Sized (G.ParityGame.board game.now).size tags.now winners.now moves.now },
}
