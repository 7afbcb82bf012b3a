ghost use Rattle.std.specs.Prelude.{◌≡◌, ◌<◌, ◌↔◌, IsTrue};
ghost use Rattle.chart.specs.Players.{numbered};
ghost use Rattle.parity.specs.Attractors.{turned};

use super::ParityGame;
use super::trail::Trail;
use super::workspace::Workspace;
use chart::Player;

/// The set of the positions of a mark, into which its player draws what it can.
#[derive(Clone, Copy)]
pub(crate) struct Attractor {
    pub(crate) player: Player,
    pub(crate) mark: u32,
}

/// Whether the number is the player's. A match, since the solver's loops ask it and it is compiled
/// into them: as `==`, a call into another crate, it made some games take twice as long.
fn is_number_of(player: Player, number: u8) -> bool
    ensures { IsTrue result ↔ (number ≡ numbered player) }
{
    match player {
        Player::Controller => number == 0,
        Player::Harbour => number == 1,
    }
}

/// The position that comes at a place of a sweep up, or down.
fn turn(down: bool, size: usize, place: usize) -> usize
    requires { place < size }
    ensures { result ≡ turned down size place }
{
    if down { size - 1 - place } else { place }
}

impl<'a, G: ParityGame> Workspace<'a, G> {
    ghost use Rattle.std.specs.Prelude.{◌≡◌, ◌<◌, length, slice_index, Some, None};
    ghost use Rattle.chart.specs.Players.{numbered};
    ghost use Rattle.parity.specs.Attractors.{Pulls, Leaks, Tried, Chased, Swept, Drawn};
    ghost use Rattle.parity.specs.Workspaces.{board_of, sheet_of, Same};

    /// The tag at which a move ends.
    pub(crate) fn end_tag(&self, position: usize, number: usize) -> u32
        requires position_in_bounds { position < length self.now.tags.now }
        requires number_in_bounds { number < (board_of self.now).game.degree position }
        ensures { result ≡ (sheet_of self.now).tag ((board_of self.now).game.target position number) }
    {
        // Proved to be within the table: a test at each read takes a third more instructions.
        self.tags[self.game.target(position, number)]
    }

    /// The move by which the player draws the position into the set, if it does.
    fn pull(&self, attractor: Attractor, position: usize) -> Option<u32>
        requires { position < length self.now.tags.now }
        ensures { elim result [
          | Some k ↦ Pulls (board_of self.now).game (numbered attractor.player) attractor.mark (sheet_of self.now).tag position k
          | None ↦ Leaks (board_of self.now).game (numbered attractor.player) attractor.mark (sheet_of self.now).tag position
        ] }
    {
        // Loops, not `find` and `all`: a closure that asks the game would need a contract of its own.
        let degree = self.game.degree(position);
        if is_number_of(attractor.player, self.game.owner(position)) {
            for ours in 0..degree {
                if self.end_tag(position, ours) == attractor.mark {
                    return Some(ours as u32);
                }
            }
            None
        } else {
            for theirs in 0..degree {
                if self.end_tag(position, theirs) < attractor.mark {
                    return None;
                }
            }
            Some(0)
        }
    }

    /// Joins the position to the set if the player draws it in, and says whether it did.
    fn draw_in(&mut self, attractor: Attractor, position: usize) -> bool
        requires { position < length self.old.tags.now }
        ensures same { Same self.old self.new }
        ensures tried { Tried (board_of self.old).game (numbered attractor.player) attractor.mark
            (sheet_of self.old) (sheet_of self.new) position result }
    {
        if self.tags[position] >= attractor.mark {
            return false;
        }
        let Some(number) = self.pull(attractor, position) else {
            return false;
        };
        self.tags[position] = attractor.mark;
        self.winners[position] = u32::from(attractor.player);
        self.moves[position] = number;
        true
    }

    /// One sweep over all positions, up or down: each that the player draws in joins. Says whether
    /// one did.
    fn sweep(&mut self, attractor: Attractor, down: bool) -> bool
        ensures same { Same self.old self.new }
        ensures swept { Swept (board_of self.old) (numbered attractor.player) attractor.mark
            (sheet_of self.old) (sheet_of self.new) down (board_of self.old).size result }
    {
        let size = self.tags.len();
        let mut grew = false;
        for place in 0..size {
            grew |= self.draw_in(attractor, turn(down, size, place));
        }
        grew
    }

    /// Joins the position to the set if there is such a position and the player draws it in. Says
    /// whether it did.
    #[tactic(auto, using(crate::proofs::Sweeps::tried_chased))]
    fn try_in(&mut self, attractor: Attractor, position: usize) -> bool
        ensures same { Same self.old self.new }
        ensures chased { Chased (board_of self.old) (numbered attractor.player) attractor.mark
            (sheet_of self.old) (sheet_of self.new) }
    {
        position < self.tags.len() && self.draw_in(attractor, position)
    }

    /// Looks at what leads to the position, and joins to the set and to the queue what the player
    /// draws in.
    fn follow(&mut self, attractor: Attractor, position: usize, trail: &mut Trail<'_>)
        ensures same { Same self.old self.new }
        ensures chased { Chased (board_of self.old) (numbered attractor.player) attractor.mark
            (sheet_of self.old) (sheet_of self.new) }
    {
        for place in trail.list(position) {
            let source = trail.source(place);
            if self.try_in(attractor, source as usize) {
                trail.push(source);
            }
        }
    }

    /// Queues the positions of the mark, and nothing else.
    fn gather(&self, mark: u32, trail: &mut Trail<'_>) {
        trail.clear();
        for (position, tag) in self.tags.iter().enumerate() {
            if *tag == mark {
                trail.push(position as u32);
            }
        }
    }

    /// Draws in what the trail leads to, from the set outwards.
    fn chase(&mut self, attractor: Attractor, trail: &mut Trail<'_>)
        ensures same { Same self.old self.new }
        ensures chased { Chased (board_of self.old) (numbered attractor.player) attractor.mark
            (sheet_of self.old) (sheet_of self.new) }
    {
        self.gather(attractor.mark, trail);
        for place in 0..self.tags.len() {
            let Some(position) = trail.queued(place) else {
                return;
            };
            self.follow(attractor, position as usize, trail);
        }
    }

    /// Draws into the set every position of a lower tag from which the player can force a way
    /// there: first along the trail, then in sweeps until one finds nothing more.
    pub(crate) fn attract(&mut self, attractor: Attractor, trail: &mut Trail<'_>)
        ensures same { Same self.old self.new }
        ensures drawn { Drawn (board_of self.old) (numbered attractor.player) attractor.mark
            (sheet_of self.old) (sheet_of self.new) }
    {
        self.chase(attractor, trail);
        let mut down = false;
        while self.sweep(attractor, down) {
            down = !down;
        }
    }
}
