/// What the signal heads of a group show.
#[derive(Clone, Copy, Debug, PartialEq, Eq)]
pub enum Aspect {
    /// Stop.
    Red,
    /// Red and amber together: the green comes at most the group's red-amber later.
    RedAmber,
    /// Go.
    Green,
    /// The green ended at most the group's amber before.
    Amber,
}
