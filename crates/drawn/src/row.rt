use chart::Player;

/// A vertex of a drawn chart: its `degree` moves stand from `start` on among the moves of all.
#[derive(Clone, Copy)]
pub struct Row {
    pub owner: Player,
    pub colour: u8,
    pub start: usize,
    pub degree: usize,
}
