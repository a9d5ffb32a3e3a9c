/// A start link: the follower's green starts so many seconds after the leader's, modulo the cycle.
#[derive(Clone, Copy, Debug, PartialEq, Eq)]
pub struct Link {
    /// The number of its group, from 0.
    pub leader: u32,
    /// The number of its group, from 0.
    pub follower: u32,
    /// In seconds; a table takes at most 299.
    pub after: u32,
}
