//! The base of the signal designer: exact fractions, names, times of a signal group, and the traits
//! of the outside. A shelf holds named bytes and a sink takes bytes; both have a form in memory, which
//! tells its bytes to contracts, and an adapter over files or standard output, which doesn't.
#![tactic(auto)]

mod call_number;
mod divisor;
mod file_node;
mod file_shelf;
mod folder;
mod group_times;
mod label;
mod lane_set;
mod memory_shelf;
mod memory_sink;
mod no_memory;
mod put_file;
mod ranges;
mod ratio;
mod read_limited;
mod retry;
mod shelf;
mod sibling;
mod sink;
mod std_sink;
mod target;
mod text;
mod title;
mod write_log;
mod write_whole;

pub use file_shelf::FileShelf;
pub use group_times::GroupTimes;
pub use label::Label;
pub use lane_set::LaneSet;
pub use memory_shelf::MemoryShelf;
pub use memory_sink::MemorySink;
pub use no_memory::NoMemory;
pub use ranges::{
    LONGEST_AMBER, LONGEST_CYCLE, LONGEST_GREEN, LONGEST_INTERGREEN, LONGEST_MIN_GREEN,
    LONGEST_RED_AMBER, LONGEST_START_LOST, MOST_GROUPS, MOST_LANES, NO_GREEN,
};
pub use ratio::Ratio;
pub use shelf::{Shelf, ShelfFault};
pub use sink::{Sink, SinkFault};
pub use std_sink::StdSink;
pub use target::Target;
pub use text::{put, put_bytes, put_number};
pub use title::Title;
