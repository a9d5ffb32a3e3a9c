//! What is true of all stretched plans. This function does nothing: it is the place where the law is
//! proved.
ghost use Rattle.plan_stretch.specs.StretchLaw.{StretchLaw};

/// A plan that fits is stretched by the longest greens: the new plan fits, no green is shorter, its
/// multiplier isn't less over any set of lanes, and it meets what the plan met.
pub fn stretch_law()
    ensures { StretchLaw }
{}
