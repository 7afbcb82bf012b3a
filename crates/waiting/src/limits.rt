/// A waiting chart has at most so many positions.
pub const MOST_POSITIONS: usize = 4096;

/// The highest chart over which a waiting chart may be laid.
pub const HIGHEST_BELOW: u8 = 28;
