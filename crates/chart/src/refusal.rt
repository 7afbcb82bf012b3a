ghost use Rattle.std.specs.Prelude.{◌≡◌};
ghost use Rattle.chart.specs.Refusals.{number_of, place_of};

use std::fmt;

/// Why a call refuses. A variant is named for its cause and carries its
/// place, if the rule names one; docs/REFUSALS.md has each number and place.
#[derive(Clone, Copy, PartialEq, Eq, Debug)]
pub enum Refusal {
    UnknownOwner,
    ColourTooHigh,
    TooManyVertices,
    AbsentVertex,
    CostTooHigh,
    TooManyMoves,
    AbsentMove,
    /// The lowest vertex without a move.
    DeadEnd(usize),
    ShortTable,
    ShortMemory,
    /// The vertex; 0 at the helm, which names no place.
    WrongPlanEntry(usize),
    UnmarkedStart,
    TooManySteps,
    /// The line, counted from 1.
    WrongLine(usize),
    ShortBuffer,
}

impl Refusal {
    /// The number by which the product's users know the cause.
    pub fn number(self) -> u8
        ensures { result ≡ number_of self }
    {
        match self {
            Refusal::UnknownOwner => 1,
            Refusal::ColourTooHigh => 2,
            Refusal::TooManyVertices => 3,
            Refusal::AbsentVertex => 4,
            Refusal::CostTooHigh => 5,
            Refusal::TooManyMoves => 6,
            Refusal::AbsentMove => 7,
            Refusal::DeadEnd(_) => 8,
            Refusal::ShortTable => 10,
            Refusal::ShortMemory => 11,
            Refusal::WrongPlanEntry(_) => 13,
            Refusal::UnmarkedStart => 21,
            Refusal::TooManySteps => 22,
            Refusal::WrongLine(_) => 23,
            Refusal::ShortBuffer => 24,
        }
    }

    /// Where the cause lies; 0 where the rule names no place.
    pub fn place(self) -> usize
        ensures { result ≡ place_of self }
    {
        match self {
            Refusal::UnknownOwner => 0,
            Refusal::ColourTooHigh => 0,
            Refusal::TooManyVertices => 0,
            Refusal::AbsentVertex => 0,
            Refusal::CostTooHigh => 0,
            Refusal::TooManyMoves => 0,
            Refusal::AbsentMove => 0,
            Refusal::DeadEnd(vertex) => vertex,
            Refusal::ShortTable => 0,
            Refusal::ShortMemory => 0,
            Refusal::WrongPlanEntry(vertex) => vertex,
            Refusal::UnmarkedStart => 0,
            Refusal::TooManySteps => 0,
            Refusal::WrongLine(line) => line,
            Refusal::ShortBuffer => 0,
        }
    }
}

impl fmt::Display for Refusal {
    fn fmt<W: fmt::Write>(&self, f: &mut fmt::Formatter<W>) -> fmt::Result {
        let number = self.number();
        let place = self.place();
        write!(f, "refused={number},{place}")
    }
}
