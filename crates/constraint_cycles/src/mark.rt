/// Which group of a conflicting pair starts first in the cycle, or whether a link passes the cycle's end.
#[derive(Clone, Copy, Debug, PartialEq, Eq)]
pub enum Mark {
    /// Not decided.
    Open,
    /// The lower-numbered group; the link's follower behind its leader.
    First,
    /// The higher-numbered group; the link's follower past the cycle's end.
    Second,
}
