use conflict_matrix::Conflicts;

/// What a tree is judged by.
#[derive(Clone, Copy)]
pub struct Basis<'c> {
    pub conflicts: &'c Conflicts,
    /// The needs of the tree's target, in seconds.
    pub needs: [u32; 16],
    /// The tree's cycle, in seconds.
    pub cycle: u32,
    /// Whether it is the last tree of a stopped search.
    pub unfinished: bool,
}
