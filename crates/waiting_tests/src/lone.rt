ghost use Rattle.std.specs.Prelude.{◌≡◌, ◌%◌, ◌≤◌};
ghost use Rattle.waiting_tests.specs.Lone.{lone, naught};
ghost use Rattle.waiting_tests.specs.Sound.{lone_ranged, naught_named};

use chart::{Chart, Move, Player};

/// A chart of one vertex, of any height.
#[derive(Drop)]
pub struct Lone {
    pub height: u8,
    ghost low: { height ≤ 30 },
    ghost even: { height % 2 ≡ 0 },
}

impl Chart for Lone {
    type Name = usize;

    ghost meaning = { λ c. lone c.height };

    ghost naming = { λ _ v. naught v };

    ghost finding = { λ _ x. naught x };

    ghost ranged = { λ c. lone_ranged c.height c.low c.even };

    ghost named = { λ _. naught_named };

    fn size(&self) -> usize {
        1
    }

    fn height(&self) -> u8 {
        self.height
    }

    fn owner(&self, vertex: usize) -> Option<Player> {
        (vertex == 0).then_some(Player::Harbour)
    }

    fn colour(&self, vertex: usize) -> Option<u8> {
        (vertex == 0).then_some(self.height)
    }

    fn degree(&self, vertex: usize) -> Option<usize> {
        (vertex == 0).then_some(1)
    }

    fn move_at(&self, vertex: usize, number: usize) -> Option<Move> {
        (vertex == 0 && number == 0).then_some(Move { target: 0, cost: 1 })
    }

    fn name(&self, vertex: usize) -> Option<usize> {
        (vertex == 0).then_some(0)
    }

    fn find(&self, name: usize) -> Option<usize> {
        (name == 0).then_some(0)
    }
}
