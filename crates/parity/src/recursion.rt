use super::attractor::Attractor;
use super::trail::Trail;
use super::workspace::Workspace;
use super::{ParityGame, favoured};

impl<'a, G: ParityGame> Workspace<'a, G> {
    ghost use Rattle.parity.specs.Solving.{Region, Solved};
    ghost use Rattle.parity.specs.Workspaces.{board_of, sheet_of, Same};

    /// Solves the region of the tags below the bound, whose colours are below the number of
    /// colours.
    ///
    /// The player of the highest colour draws in what it can, and what is left is solved by itself.
    /// What the other player wins there, and what it draws in from there, is its for good; so it
    /// goes on with the rest until the other wins nothing more.
    pub(crate) fn solve_region(&mut self, colours: u32, bound: u32, trail: &mut Trail<'_>)
        requires { Region (board_of self.old) colours bound (sheet_of self.old) }
        ensures same { Same self.old self.new }
        ensures solved { Solved (board_of self.old) bound (sheet_of self.old) (sheet_of self.new) }
    {
        if colours == 0 {
            return;
        }
        let top = colours - 1;
        let player = favoured(top);
        let other = player.opponent();
        let mark = bound - 2;
        let ours = Attractor { player, mark };
        let theirs = Attractor {
            player: other,
            mark: mark + 1,
        };
        'rounds: while self.seed(top, ours) {
            self.attract(ours, trail);
            let below = self.highest(mark);
            self.solve_region(below, mark, trail);
            if !self.give(other, mark) {
                return;
            }
            self.attract(theirs, trail);
        }
        let below = self.highest(mark + 1);
        self.solve_region(below, mark + 1, trail);
    }
}
