use crate::faults::{Key, Part};

/// Where a fault was met: the top has index 0, elements count from 1.
#[derive(Clone, Copy, Debug, PartialEq, Eq)]
pub struct Spot {
    pub part: Part,
    pub index: usize,
    pub key: Key,
}
