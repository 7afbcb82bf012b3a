#![tactic(auto)]

ghost use Rattle.std.specs.Prelude.{◌≡◌, ℕ, length, Option};
ghost use Rattle.chart.specs.Arena.{Arena, Ranged, size, vertex_at, move_at};
ghost use Rattle.chart.specs.Players.{numbered};
ghost use Rattle.chart.specs.Names.{Naming};
ghost use Rattle.std.specs.Option.{option_map};

pub use parts::{Move, Player};

pub mod dead_end;
pub mod parts;
pub mod refusal;

pub use dead_end::lowest_dead_end;
pub use refusal::Refusal;

/// A chart of any kind. Its whole meaning is a finite arena; each answer is
/// an equation with it, and no question changes the chart.
pub trait Chart {
    /// How this kind names its vertices.
    type Name: Copy;

    ghost meaning: { Self → Arena };

    ghost naming: { Self → ℕ → Option Self.Name };

    ghost finding: { Self → Self.Name → Option ℕ };

    /// The number of vertices.
    fn size(&self) -> usize
        ensures { result ≡ size (meaning self.now) };

    /// The even number that no colour passes.
    fn height(&self) -> u8
        ensures { result ≡ (meaning self.now).height };

    /// Who decides at the vertex.
    fn owner(&self, vertex: usize) -> Option<Player>
        ensures { option_map numbered result ≡ option_map (λ v. v.owner) (vertex_at (meaning self.now) vertex) };

    /// The colour of the vertex, at most the height.
    fn colour(&self, vertex: usize) -> Option<u8>
        ensures { result ≡ option_map (λ v. v.colour) (vertex_at (meaning self.now) vertex) };

    /// The number of moves that leave the vertex.
    fn degree(&self, vertex: usize) -> Option<usize>
        ensures { result ≡ option_map (λ v. length v.moves) (vertex_at (meaning self.now) vertex) };

    /// The target and the cost of a move.
    fn move_at(&self, vertex: usize, number: usize) -> Option<Move>
        ensures { result ≡ move_at (meaning self.now) vertex number };

    /// The name of the vertex.
    fn name(&self, vertex: usize) -> Option<Self::Name>
        ensures { result ≡ naming self.now vertex };

    /// The vertex of a name.
    fn find(&self, name: Self::Name) -> Option<usize>
        ensures { result ≡ finding self.now name };

    ghost ranged: { (c : Self) → Ranged (meaning c) };

    ghost named: { (c : Self) → Naming (size (meaning c)) (naming c) (finding c) };
}
