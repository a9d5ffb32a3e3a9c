/// Two groups that conflict, by their numbers from 0, with the intergreen in each direction in seconds.
#[derive(Clone, Copy, Debug, PartialEq, Eq)]
pub struct Entry {
    pub a: u32,
    pub b: u32,
    /// From the end of `a`'s green to the start of `b`'s.
    pub a_to_b: u32,
    /// From the end of `b`'s green to the start of `a`'s.
    pub b_to_a: u32,
}
