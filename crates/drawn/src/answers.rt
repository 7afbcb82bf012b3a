ghost use Rattle.std.specs.Prelude.{◌≡◌};
ghost use Rattle.std.specs.List.{slice_get};
ghost use Rattle.std.specs.Option.{option_map};
ghost use Rattle.chart.specs.Arena.{size};
ghost use Rattle.drawn.specs.Rules.{move_count};
ghost use Rattle.drawn.specs.Meaning.{rows, sheet, itself};
ghost use Rattle.drawn.specs.Readings.{sheet_ranged, numbers_name};

use super::limits::HEIGHT;
use super::row::Row;
use super::sheet::Drawn;
use chart::{Chart, Move, Player};

impl Drawn {
    /// How many moves stand in the chart.
    #[tactic(auto, using(crate::proofs::Standing::count_is))]
    pub fn move_count(&self) -> usize
        ensures { result ≡ move_count (sheet self.now).vertices }
    {
        self.used
    }

    /// The row of a vertex, if the vertex is there.
    pub(crate) fn row(&self, vertex: usize) -> Option<&Row>
        ensures { option_map (λ r. r.now) result ≡ slice_get (rows self.now) vertex }
    {
        self.rows[..self.count].get(vertex)
    }
}

impl Chart for Drawn {
    type Name = usize;

    ghost meaning = { sheet };

    ghost naming = { λ d v. itself (size (sheet d)) v };

    ghost finding = { λ d x. itself (size (sheet d)) x };

    ghost ranged = { λ d. sheet_ranged d };

    ghost named = { λ d. numbers_name (size (sheet d)) };

    #[tactic(auto, using(crate::specs::Readings::size_is))]
    fn size(&self) -> usize {
        self.count
    }

    fn height(&self) -> u8 {
        HEIGHT
    }

    #[tactic(auto, using(crate::proofs::Standing::vertex_is))]
    fn owner(&self, vertex: usize) -> Option<Player> {
        self.row(vertex).map(|row| row.owner)
    }

    #[tactic(auto, using(crate::proofs::Standing::vertex_is))]
    fn colour(&self, vertex: usize) -> Option<u8> {
        self.row(vertex).map(|row| row.colour)
    }

    #[tactic(auto, using(crate::proofs::Standing::degrees_are))]
    fn degree(&self, vertex: usize) -> Option<usize> {
        self.row(vertex).map(|row| row.degree)
    }

    fn move_at(&self, vertex: usize, number: usize) -> Option<Move> {
        let row = self.row(vertex)?;
        self.moves[row.start..row.start + row.degree]
            .get(number)
            .copied()
    }

    #[tactic(auto, using(crate::specs::Readings::size_is))]
    fn name(&self, vertex: usize) -> Option<usize> {
        (vertex < self.count).then_some(vertex)
    }

    #[tactic(auto, using(crate::specs::Readings::size_is))]
    fn find(&self, name: usize) -> Option<usize> {
        (name < self.count).then_some(name)
    }
}
