//! One edge of a difference system.

/// The group `to` starts at least `weight` seconds after the group `from`.
#[derive(Clone, Copy)]
pub struct Edge {
    pub from: u8,
    pub to: u8,
    pub weight: i32,
}
