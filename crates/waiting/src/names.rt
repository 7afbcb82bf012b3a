ghost use Rattle.std.specs.Prelude.{◌≡◌};
ghost use Rattle.waiting.specs.Positions.{renamed};

/// A position of a waiting chart: a vertex below, by its name or its number, with a level and a stage.
#[derive(Clone, Copy, PartialEq, Eq, Debug)]
pub struct Position<N> {
    pub below: N,
    pub level: u8,
    pub stage: u8,
}

impl<N: Copy> Position<N> {
    /// The same level and stage, with another word for the vertex.
    pub(crate) fn renamed<M>(self, below: M) -> Position<M>
        ensures { result ≡ renamed self below }
    {
        Position {
            below,
            level: self.level,
            stage: self.stage,
        }
    }
}
