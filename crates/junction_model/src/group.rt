use sig_base::{GroupTimes, Label};

/// A signal group: signal heads that always show the same.
#[derive(Clone, Copy, Debug, PartialEq, Eq)]
pub struct Group {
    /// Its name.
    pub label: Label,
    /// Its times in seconds.
    pub times: GroupTimes,
}
