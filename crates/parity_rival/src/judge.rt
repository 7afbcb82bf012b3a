use super::fixpoint::get;
use chart::Player;
use parity::{ParityGame, favoured};
use parity_games::put;

/// A search among at most N positions: the sign of the last search that met each, and the queue of
/// those that this one has met, of which some are still to be looked at. Each search has its own
/// sign.
#[derive(Drop)]
pub struct Search<const N: usize> {
    signs: [u32; N],
    sign: u32,
    queue: [usize; N],
    met: usize,
    looked_at: usize,
}

impl<const N: usize> Search<N> {
    /// No search yet.
    pub fn new() -> Search<N> {
        Search {
            signs: [0; N],
            sign: 0,
            queue: [0; N],
            met: 0,
            looked_at: 0,
        }
    }

    /// Begins another search, at the position.
    fn begin(&mut self, start: usize) {
        self.sign = self.sign.wrapping_add(1);
        self.met = 0;
        self.looked_at = 0;
        self.meet(start);
    }

    /// Queues the position, unless this search has met it.
    fn meet(&mut self, position: usize) {
        if get(&self.signs, position) != self.sign {
            put(&mut self.signs, position, self.sign);
            put(&mut self.queue, self.met, position);
            self.met = self.met.wrapping_add(1);
        }
    }

    /// The next position to be looked at.
    fn next(&mut self) -> Option<usize> {
        let position = self.queue.get(..self.met)?.get(self.looked_at).copied()?;
        self.looked_at = self.looked_at.wrapping_add(1);
        Some(position)
    }
}

/// What a solver says of a game: the winner of each position, and the move that its owner is to
/// play if it is the winner.
#[derive(Drop)]
pub struct Verdict<'a, G: ParityGame> {
    pub game: &'a G,
    pub winners: &'a [u32],
    pub moves: &'a [u32],
}

impl<'a, G: ParityGame> Verdict<'a, G> {
    /// Who wins the position, if the verdict names a player.
    fn winner(&self, position: usize) -> Option<Player> {
        Player::try_from(get(self.winners, position)).ok()
    }

    /// The number of the move that the verdict gives.
    fn choice(&self, position: usize) -> usize {
        get(self.moves, position) as usize
    }

    fn owns(&self, player: Player, position: usize) -> bool {
        u32::from(self.game.owner(position)) == u32::from(player)
    }

    /// Whether the move may be played where the player goes by the verdict: its choice, or any move
    /// of the other player.
    fn plays(&self, player: Player, position: usize, number: usize) -> bool {
        !self.owns(player, position) || self.choice(position) == number
    }

    /// Whether the player of the position's half has a move that exists, and no play leaves the
    /// half.
    fn stays(&self, player: Player, position: usize) -> bool {
        let degree = self.game.degree(position);
        (!self.owns(player, position) || self.choice(position) < degree)
            && (0..degree)
                .filter(|number| self.plays(player, position, *number))
                .all(|number| self.winner(self.game.target(position, number)) == Some(player))
    }

    /// Whether a play comes back to the position with no higher colour between.
    fn returns<const N: usize>(
        &self,
        player: Player,
        start: usize,
        search: &mut Search<N>,
    ) -> bool {
        search.begin(start);
        for _ in 0..self.game.size() {
            let Some(position) = search.next() else {
                return false;
            };
            let ends = (0..self.game.degree(position))
                .filter(|number| self.plays(player, position, *number))
                .map(|number| self.game.target(position, number))
                .filter(|end| self.game.colour(*end) <= self.game.colour(start));
            for end in ends {
                if end == start {
                    return true;
                }
                search.meet(end);
            }
        }
        false
    }

    /// Whether the position's winner keeps it: no play leaves the winner's half, and none comes back
    /// to the position with no higher colour between, unless its colour is good for the winner.
    fn keeps<const N: usize>(&self, position: usize, search: &mut Search<N>) -> bool {
        let Some(player) = self.winner(position) else {
            return false;
        };
        self.stays(player, position)
            && (favoured(u32::from(self.game.colour(position))) == player
                || !self.returns(player, position, search))
    }

    /// Whether each player keeps its half by its moves.
    pub fn kept<const N: usize>(&self, search: &mut Search<N>) -> bool {
        (0..self.game.size()).all(|position| self.keeps(position, search))
    }
}
