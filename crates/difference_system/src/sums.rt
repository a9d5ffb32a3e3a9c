//! The greatest sums of weights along edges from each group to each other (Floyd 1962, Warshall 1962), kept while items
//! are decided one after another. The root order has only edges with group 0, so its sums lead by way of it. A decision
//! adds an edge each way between two groups: a new sum is the greatest of the old one and of those by way of one of the two
//! edges, since no walk gains by both of them unless they make a positive cycle. Whether they do is seen by three tests
//! on the old sums, before a cell is written; then no starts meet the edges. Every sum lies within a cycle, since the edges
//! with group 0 keep all starts in one. The sums from group 0 are the least starts.
mod decision;
mod guess;
mod matrix;
mod root;
mod starts;
mod wave;

pub use decision::{Decision, decide_item};
pub use matrix::{Sums, TwoEdges};
pub use root::root_sums;
pub use starts::row_starts;
