#![tactic(auto)]

ghost use Rattle.std.specs.Prelude.{◌≡◌, ◌%◌};
ghost use Rattle.chart.specs.Players.{numbered};
ghost use Rattle.parity.specs.Boards.{Board, Ranged};

use chart::Player;

mod attractor;
mod recursion;
mod round;
pub mod rows;
pub mod solver;
mod trail;
mod workspace;

/// A finite parity game. The highest colour that comes again and again decides a play: even is good
/// for player 0, odd for player 1. Every question is answered, in constant time; an answer past the
/// last position or move is of no account.
pub trait ParityGame {
    ghost board: { Self → Board };

    /// The number of positions.
    fn size(&self) -> usize
        ensures { result ≡ (board self.now).size };

    /// Who moves at the position: 0 or 1.
    fn owner(&self, position: usize) -> u8
        ensures { result ≡ (board self.now).game.owner position };

    /// The colour of the position.
    fn colour(&self, position: usize) -> u8
        ensures { result ≡ (board self.now).game.colour position };

    /// The number of moves that leave the position.
    fn degree(&self, position: usize) -> usize
        ensures { result ≡ (board self.now).game.degree position };

    /// Where the move of a number ends.
    fn target(&self, position: usize, number: usize) -> usize
        ensures { result ≡ (board self.now).game.target position number };

    ghost ranged: { (c : Self) → Ranged (board c) };
}

/// The player for whom a colour is good that comes again and again.
pub fn favoured(colour: u32) -> Player
    ensures { numbered result ≡ colour % 2 }
{
    if colour % 2 == 0 {
        Player::Controller
    } else {
        Player::Harbour
    }
}
