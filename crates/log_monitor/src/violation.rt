/// What makes a list of rows unsafe. Groups are told by their numbers from 0, rows by their
/// seconds.
#[derive(Clone, Copy, Debug, PartialEq, Eq)]
pub enum Violation {
    /// The first group showed green in the first second, and the second one, which conflicts with
    /// it, in the last: no more seconds than the intergreen passed. The two seconds may be the
    /// same.
    Clearance(u32, u32, u64, u64),
    /// The group's amber after a green wasn't over, and it didn't show amber in this second.
    Amber(u32, u64),
    /// The group's green ended with this second, and had lasted fewer seconds than its minimum.
    Minimum(u32, u64),
}
