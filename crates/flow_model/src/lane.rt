use sig_base::Label;

/// The greatest arrival flow, and the greatest saturation flow, in vehicles per hour.
pub const MOST_FLOW: u32 = 20000;

/// A degree of saturation of 1, in per mille.
pub const WHOLE: u32 = 1000;

/// A traffic lane, which one signal group serves.
#[derive(Clone, Copy, Debug, PartialEq, Eq)]
pub struct Lane {
    pub label: Label,
    /// The number of its group, from 0.
    pub group: u32,
    /// Arrival flow in vehicles per hour.
    pub arrival: u32,
    /// Saturation flow in vehicles per hour.
    pub saturation: u32,
    /// The greatest degree of saturation that is allowed, in per mille.
    pub limit: u32,
}
