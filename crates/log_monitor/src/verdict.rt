use crate::violation::Violation;

/// What a log shows.
#[derive(Clone, Copy, Debug, PartialEq, Eq)]
pub enum LogVerdict {
    /// Its rows are safe; how many there are.
    Safe(u64),
    /// They aren't; the first violation, with the log's own seconds.
    Unsafe(Violation),
}
