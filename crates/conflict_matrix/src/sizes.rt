//! The sizes of the table of conflicts.

/// A cell for each ordered pair of groups.
pub const CELLS: usize = 256;

/// What stands in the cell of two groups that don't conflict.
pub const NO_CONFLICT: u8 = 255;

/// The most conflicting pairs that a table may have: as many as 16 groups can have.
pub const MOST_PAIRS: usize = 120;

/// The most links that a table may have.
pub const MOST_LINKS: usize = 12;
