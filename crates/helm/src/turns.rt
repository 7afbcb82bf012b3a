/// Where a voyage under way stands: the vertex reached, and the record so far.
#[derive(Clone, Copy)]
pub(crate) struct Standing {
    pub(crate) vertex: usize,
    pub(crate) so_far: Record,
}

/// Our turn: the voyage stands at a vertex of the controller, and only `steer` goes on.
#[derive(Drop)]
pub struct OurTurn {
    pub(crate) at: Standing,
}

/// The harbour's turn: one hears its move first.
#[derive(Drop)]
pub struct HarbourTurn {
    pub(crate) at: Standing,
}

/// Whoever's turn it is.
#[derive(Drop)]
pub enum Turn {
    Ours(OurTurn),
    Harbours(HarbourTurn),
}

/// The token of a voyage under way. It cannot be copied, dropped or made
/// outside this crate: `begin` hands it out, and only `finish` takes it back.
pub struct Slip {
    pub(crate) seal: (),
}

/// The record of a voyage: the moves made, the worst wait, and the highest colour
/// still waiting, 0 for none.
#[derive(Clone, Copy, PartialEq, Eq, Debug)]
pub struct Record {
    pub moves: u32,
    pub worst: u64,
    pub waiting: u8,
}
