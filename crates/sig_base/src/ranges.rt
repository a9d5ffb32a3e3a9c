//! The greatest times of a junction, in seconds, and how many groups and lanes it may have.

/// The longest cycle, which is also the longest green.
pub const LONGEST_CYCLE: u32 = 300;

/// The longest green that any group may have, in seconds.
pub const LONGEST_GREEN: u32 = 300;

/// One second past the longest green: the need of a group for which no green is enough.
pub const NO_GREEN: u32 = 301;

/// The longest green that a group may be bound to show.
pub const LONGEST_MIN_GREEN: u32 = 120;

/// The longest amber; no end gain is longer.
pub const LONGEST_AMBER: u32 = 30;

/// The longest red-amber, in seconds; it is shown before a green.
pub const LONGEST_RED_AMBER: u32 = 10;

/// The longest part of a green that is lost while the queue starts to move.
pub const LONGEST_START_LOST: u32 = 10;

/// The longest time from the end of one group's green to the start of another's, in seconds.
pub const LONGEST_INTERGREEN: u32 = 60;

pub const MOST_GROUPS: usize = 16;

pub const MOST_LANES: usize = 32;
