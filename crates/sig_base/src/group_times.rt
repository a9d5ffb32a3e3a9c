/// The times of one signal group, in seconds.
#[derive(Clone, Copy, Debug, PartialEq, Eq)]
pub struct GroupTimes {
    /// The shortest green that may be shown.
    pub min_green: u32,
    /// How long amber is shown after green.
    pub amber: u32,
    /// How long red and amber are shown together before green.
    pub red_amber: u32,
    /// The part of a green that is lost while the queue starts to move.
    pub start_lost: u32,
    /// The part of the amber in which traffic still flows.
    pub end_gain: u32,
    /// The longest green that may be shown.
    pub max_green: u32,
}
