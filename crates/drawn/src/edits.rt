ghost use Rattle.std.specs.Prelude.{◌≡◌};
ghost use Rattle.chart.specs.Refusals.{outcome};
ghost use Rattle.drawn.specs.Rules.{blank, place_outcome, placed, join_outcome, joined, strike_outcome, struck};
ghost use Rattle.drawn.specs.Meaning.{sheet};

use super::arrays::{resized, with_move, without_move};
use super::limits::{DEAREST, HIGHEST_COLOUR, MOST_MOVES, MOST_VERTICES};
use super::row::Row;
use super::sheet::Drawn;
use chart::{Move, Player, Refusal};

impl Drawn {
    /// A chart on which nothing is drawn yet.
    pub fn new() -> Self
        ensures { sheet result ≡ blank }
    {
        let rows = [Row {
            owner: Player::Controller,
            colour: 0,
            start: 0,
            degree: 0,
        }; MOST_VERTICES];
        let moves = [Move { target: 0, cost: 0 }; MOST_MOVES];
        Drawn {
            count: 0,
            used: 0,
            rows,
            moves,
        }
    }

    /// Adds a vertex without moves and answers its number. Refuses an owner above 1, then a colour
    /// above 8, then a 129th vertex; what it refuses leaves the chart as it stood.
    pub fn place(&mut self, owner: u32, colour: u32) -> Result<usize, Refusal>
        ensures answer { outcome result ≡ place_outcome (sheet self.old) owner colour }
        ensures after { sheet self.new ≡ placed (sheet self.old) owner colour }
    {
        let player = Player::try_from(owner)?;
        if colour > HIGHEST_COLOUR {
            return Err(Refusal::ColourTooHigh);
        }
        let number = self.count;
        if number >= MOST_VERTICES {
            return Err(Refusal::TooManyVertices);
        }
        let mut rows = self.rows;
        rows[number] = Row {
            owner: player,
            colour: colour as u8,
            start: self.used,
            degree: 0,
        };
        *self = Drawn {
            count: number + 1,
            used: self.used,
            rows,
            moves: self.moves,
        };
        Ok(number)
    }

    /// Adds a last move at `from`, of so many metres of tow, and answers its number there. Refuses an
    /// absent vertex at either end, then a cost above 10,000, then a 1,025th move.
    pub fn join(&mut self, from: usize, to: usize, cost: u32) -> Result<usize, Refusal>
        ensures answer { outcome result ≡ join_outcome (sheet self.old) from to cost }
        ensures after { sheet self.new ≡ joined (sheet self.old) from to cost }
    {
        let count = self.count;
        let used = self.used;
        let row = self.row(from).ok_or(Refusal::AbsentVertex)?;
        if to >= count {
            return Err(Refusal::AbsentVertex);
        }
        if cost > DEAREST {
            return Err(Refusal::CostTooHigh);
        }
        if used >= MOST_MOVES {
            return Err(Refusal::TooManyMoves);
        }
        let number = row.degree;
        let moves = with_move(
            self.moves,
            used,
            row.start + number,
            Move { target: to, cost },
        );
        let rows = resized(self.rows, count, from, number + 1);
        *self = Drawn {
            count,
            used: used + 1,
            rows,
            moves,
        };
        Ok(number)
    }

    /// Takes a move out; later ones at the vertex go down by one. Refuses an absent vertex, then an
    /// absent move.
    pub fn strike(&mut self, vertex: usize, number: usize) -> Result<(), Refusal>
        ensures answer { outcome result ≡ strike_outcome (sheet self.old) vertex number }
        ensures after { sheet self.new ≡ struck (sheet self.old) vertex number }
    {
        let count = self.count;
        let used = self.used;
        let row = self.row(vertex).ok_or(Refusal::AbsentVertex)?;
        if number >= row.degree {
            return Err(Refusal::AbsentMove);
        }
        let moves = without_move(self.moves, used, row.start + number);
        let rows = resized(self.rows, count, vertex, row.degree - 1);
        *self = Drawn {
            count,
            used: used - 1,
            rows,
            moves,
        };
        Ok(())
    }
}
