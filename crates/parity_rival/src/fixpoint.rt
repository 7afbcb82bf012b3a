ghost use Rattle.std.specs.Prelude.{◌≡◌, slice_index};

use chart::Player;
use parity::{ParityGame, favoured};
use parity_games::put;

/// What stands at a place of the table, and 0 past its end.
pub fn get(table: &[u32], place: usize) -> u32
    ensures { result ≡ slice_index table.now place }
{
    table.get(place).copied().unwrap_or(0)
}

/// Guesses at who wins each position of a game: the player of its colour, or the other where the
/// guess is turned.
#[derive(Drop)]
struct Guesses<'a, G: ParityGame> {
    game: &'a G,
    turned: &'a mut [u32],
}

impl<'a, G: ParityGame> Guesses<'a, G> {
    /// Who wins the position as it is guessed so far.
    fn guess(&self, position: usize) -> Player {
        let player = favoured(u32::from(self.game.colour(position)));
        match get(self.turned, position) % 2 {
            0 => player,
            _ => player.opponent(),
        }
    }

    /// Whether the guesses one step on speak for the player: a guess for the owner, if it is the
    /// player, and none, if it is the other.
    fn speak_for(&self, player: Player, position: usize) -> bool {
        let owner = u32::from(self.game.owner(position));
        let wins = (0..self.game.degree(position))
            .map(|number| self.game.target(position, number))
            .any(|end| u32::from(self.guess(end)) == owner);
        wins == (owner == u32::from(player))
    }

    /// Turns the guesses at positions of the colour that one step on speaks against; says whether
    /// any turned.
    fn turn(&mut self, colour: u8) -> bool {
        let mut some = false;
        for position in 0..self.game.size() {
            if self.game.colour(position) == colour
                && get(self.turned, position) == 0
                && !self.speak_for(favoured(u32::from(colour)), position)
            {
                put(self.turned, position, 1);
                some = true;
            }
        }
        some
    }

    /// Forgets what was turned at lower colours.
    fn forget(&mut self, colour: u8) {
        let size = self.game.size();
        for (position, turned) in self.turned.iter_mut().take(size).enumerate() {
            if self.game.colour(position) < colour {
                *turned = 0;
            }
        }
    }

    /// From guesses to winners.
    fn settle(&mut self) {
        for position in 0..self.game.size() {
            let winner = self.guess(position);
            put(self.turned, position, u32::from(winner));
        }
    }
}

/// A second way to solve a game, with no attractor and no recursion: guess that the player of each
/// colour wins there, turn guesses that one step on speaks against, lowest colours first, and begin
/// again below whenever one turns. Gives up after as many steps as it is allowed.
pub fn rival<G: ParityGame>(game: &G, winners: &mut [u32], steps: usize) -> bool {
    let top = (0..game.size())
        .map(|position| game.colour(position))
        .max()
        .unwrap_or(0);
    winners.fill(0);
    let mut guesses = Guesses {
        game,
        turned: winners,
    };
    let mut colour = 0;
    for _ in 0..steps {
        if guesses.turn(colour) {
            guesses.forget(colour);
            colour = 0;
        } else if colour < top {
            colour += 1;
        } else {
            guesses.settle();
            return true;
        }
    }
    false
}
