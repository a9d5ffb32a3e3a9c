//! Sums of walks, worked out from the definitions.

mod trees;
mod walks;
mod weights;
