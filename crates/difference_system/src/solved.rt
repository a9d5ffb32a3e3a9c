//! What solving a difference system gives.
use constraint_cycles::Walk;

/// What the edges of an order come to.
#[derive(Clone, Copy, Debug, PartialEq, Eq)]
pub enum Solved {
    /// The least start of each group in seconds, group 0 being at second 0; entries past the number of groups are 0.
    Starts([u32; 16]),
    /// No starts meet the order: this walk closes it.
    Walk(Walk),
}
