/// Why a plan doesn't fit its junction. Groups count from 0.
#[derive(Clone, Copy, Debug, PartialEq, Eq)]
pub enum PlanFault {
    /// The cycle is outside the junction's limits.
    CycleLimit,
    /// The group's start isn't below the cycle.
    StartRange(u32),
    /// The group's green is below its minimum.
    MinGreen(u32),
    /// The first group is green at this second, and the second one then or within the intergreen.
    Clash(u32, u32, u32),
    /// The group's green is above its maximum.
    MaxGreen(u32),
    /// The link doesn't hold; its index from 0.
    Link(u32),
}
