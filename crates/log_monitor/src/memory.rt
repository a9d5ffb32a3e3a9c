/// What is remembered of a group.
#[derive(Clone, Copy, Debug, PartialEq, Eq)]
pub struct GroupMemory {
    /// The last row that showed it green.
    pub last: Option<u32>,
    /// Where the last row of all shows it green, the first row of that run of green.
    pub since: Option<u32>,
}
