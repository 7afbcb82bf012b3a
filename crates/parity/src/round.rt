use super::ParityGame;
use super::attractor::Attractor;
use super::workspace::Workspace;
use chart::Player;

impl<'a, G: ParityGame> Workspace<'a, G> {
    ghost use Rattle.std.specs.Prelude.{◌≡◌, ◌+◌, ◌^◌, ◌<◌, length};
    ghost use Rattle.chart.specs.Players.{numbered};
    ghost use Rattle.parity.specs.Rounds.{Stays, Seeded, SeededAt, Highest, Given};
    ghost use Rattle.parity.specs.Workspaces.{board_of, sheet_of, Same};

    /// A move from the position that ends at a tag of at most the mark; 0 where there is none.
    fn stay(&self, mark: u32, position: usize) -> u32
        requires { position < length self.now.tags.now }
        ensures { Stays (board_of self.now).game mark (sheet_of self.now).tag position result }
    {
        // A loop, not `find`: a closure that asks the game would need a contract of its own.
        for number in 0..self.game.degree(position) {
            if self.end_tag(position, number) <= mark {
                return number as u32;
            }
        }
        0
    }

    /// Seeds the position for the set if its tag is at most the mark, and says whether it has the
    /// colour.
    fn seed_at(&mut self, colour: u32, attractor: Attractor, position: usize) -> bool
        requires { position < length self.old.tags.now }
        ensures same { Same self.old self.new }
        ensures seeded { SeededAt (board_of self.old).game colour (numbered attractor.player) attractor.mark position
            (sheet_of self.old) (sheet_of self.new) result }
    {
        if self.tags[position] > attractor.mark {
            return false;
        }
        if u32::from(self.game.colour(position)) != colour {
            self.tags[position] = 0;
            return false;
        }
        self.moves[position] = self.stay(attractor.mark, position);
        self.winners[position] = u32::from(attractor.player);
        self.tags[position] = attractor.mark;
        true
    }

    /// Seeds the positions of a tag of at most the mark, and says whether one has the colour.
    pub(crate) fn seed(&mut self, colour: u32, attractor: Attractor) -> bool
        ensures same { Same self.old self.new }
        ensures seeded { Seeded (board_of self.old).game colour (numbered attractor.player) attractor.mark (board_of self.old).size
            (sheet_of self.old) (sheet_of self.new) result }
    {
        let mut some = false;
        for position in 0..self.tags.len() {
            some |= self.seed_at(colour, attractor, position);
        }
        some
    }

    /// The least number above every colour at a tag below the bound.
    #[tactic(auto, using(crate::proofs::Highest::highest_same, crate::proofs::Highest::highest_more))]
    pub(crate) fn highest(&self, bound: u32) -> u32
        ensures { Highest (board_of self.now).game bound (board_of self.now).size (sheet_of self.now).tag result }
    {
        let mut least = 0;
        for (position, tag) in self.tags.iter().enumerate() {
            if *tag < bound {
                least = least.max(u32::from(self.game.colour(position)) + 1);
            }
        }
        least
    }

    /// Hands over what the other player has won at a tag below the mark, and says whether there is
    /// any.
    pub(crate) fn give(&mut self, other: Player, mark: u32) -> bool
        requires { mark + 1 < 2 ^ 32 }
        ensures same { Same self.old self.new }
        ensures given { Given (numbered other) mark (board_of self.old).size (sheet_of self.old).winner
            (sheet_of self.old).tag (sheet_of self.new).tag result }
        ensures winners { self.new.winners.now ≡ self.old.winners.now }
        ensures moves { self.new.moves.now ≡ self.old.moves.now }
    {
        let mut some = false;
        // By index: zipped with the winners, the proof has no name for what becomes of the tags.
        for position in 0..self.tags.len() {
            if self.tags[position] < mark && self.winners[position] == u32::from(other) {
                self.tags[position] = mark + 1;
                some = true;
            }
        }
        some
    }
}
