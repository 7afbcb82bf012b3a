/// The height of every drawn chart.
pub const HEIGHT: u8 = 8;

/// No colour is above the height.
pub const HIGHEST_COLOUR: u32 = 8;

/// How many vertices stand in one chart at most.
pub const MOST_VERTICES: usize = 128;

/// How many moves stand in one chart at most.
pub const MOST_MOVES: usize = 1024;

/// The greatest cost of a move, in metres of tow.
pub const DEAREST: u32 = 10_000;
