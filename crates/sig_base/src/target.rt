use crate::ratio::Ratio;

/// A flow multiple that the lanes of a plan are asked for.
#[derive(Clone, Copy, Debug, PartialEq, Eq)]
pub enum Target {
    /// Each lane has at least this multiple.
    Reach(Ratio),
    /// Each lane has more than this multiple.
    Beat(Ratio),
}
