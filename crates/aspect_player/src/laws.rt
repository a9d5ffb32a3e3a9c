//! What is true of the rows of all plans that fit. This function does nothing: it is the place
//! where the law is proved.
ghost use Rattle.aspect_player.specs.Safe.{SafetyLaw};

/// The rows of a plan that fits are safe, however many there are: clearance between any two rows,
/// whole ambers, and whole greens of at least the minimum.
pub fn safety_law()
    ensures { SafetyLaw }
{}
