ghost use Rattle.game.specs.Waiting.{waiting};
ghost use Rattle.waiting.specs.Positions.{naming_over, finding_over};
ghost use Rattle.game.proofs.Positions.{waiting_ranged};
ghost use Rattle.waiting.specs.Named.{waiting_named};

use super::names::Position;
use super::questions::{
    find_position, position_colour, position_degree, position_move, position_name, position_owner,
    waiting_height, waiting_size,
};
use chart::{Chart, Move, Player};

/// The waiting chart over any chart. Where `may_be_laid` says no, it has no vertices.
#[derive(Drop)]
pub struct Waiting<C> {
    pub below: C,
}

impl<C: Chart> Chart for Waiting<C> {
    type Name = Position<C::Name>;

    ghost meaning = { λ t. waiting (C.Chart.meaning t.below) };

    ghost naming = { λ t p. naming_over (C.Chart.meaning t.below) (C.Chart.naming t.below) p };

    ghost finding = { λ t x. finding_over (C.Chart.meaning t.below) (C.Chart.finding t.below) x };

    ghost ranged = { λ c. waiting_ranged (C.Chart.meaning c.below) (C.Chart.ranged c.below) };

    ghost named = { λ c. waiting_named (C.Chart.meaning c.below) (C.Chart.naming c.below) (C.Chart.finding c.below) (C.Chart.named c.below) };

    fn size(&self) -> usize {
        waiting_size(&self.below)
    }

    fn height(&self) -> u8 {
        waiting_height(&self.below)
    }

    fn owner(&self, vertex: usize) -> Option<Player> {
        position_owner(&self.below, vertex)
    }

    fn colour(&self, vertex: usize) -> Option<u8> {
        position_colour(&self.below, vertex)
    }

    fn degree(&self, vertex: usize) -> Option<usize> {
        position_degree(&self.below, vertex)
    }

    fn move_at(&self, vertex: usize, number: usize) -> Option<Move> {
        position_move(&self.below, vertex, number)
    }

    fn name(&self, vertex: usize) -> Option<Position<C::Name>> {
        position_name(&self.below, vertex)
    }

    fn find(&self, name: Position<C::Name>) -> Option<usize> {
        find_position(&self.below, name)
    }
}
