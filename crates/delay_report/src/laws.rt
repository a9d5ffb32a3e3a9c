//! What is true of the delays of all lanes. This function does nothing: it is the place where the law
//! is proved.
ghost use Rattle.delay_report.specs.DelayLaw.{DelayLaw};

/// A lane that isn't saturated has a delay: no denominator in it is 0.
pub fn delay_law()
    ensures { DelayLaw }
{}
