/// A run of seconds in which the same groups are green.
#[derive(Clone, Copy, Debug, PartialEq, Eq)]
pub struct Stage {
    /// Its first second, counted from the start of the cycle.
    pub first: u32,
    /// How many seconds it lasts; it may pass the cycle's end.
    pub seconds: u32,
    /// The groups that are green: group `k`, counted from 0, where bit `k`, from the lowest, is 1.
    pub groups: u16,
}
