//! What is true of all first plans and all lists of requests. These functions do nothing: each is
//! the place where its law is proved.
ghost use Rattle.plan_change.specs.Laws.{ChangeSafetyLaw, OwnSecondLaw, LastScheduleLaw};
ghost use Rattle.plan_change.specs.Laws.{SharedPastLaw, SettledLaw, SettledSoonLaw, PlainLaw};

/// The rows are safe over every list of seconds and requests: clearance between any two rows, whole
/// ambers, and whole greens of at least the minimum.
pub fn change_safety_law()
    ensures { ChangeSafetyLaw }
{}

/// What is shown up to a second is told by the requests of earlier seconds: a request changes no
/// aspect of its own second and before, so all rows are rows of the last schedule.
pub fn past_law()
    ensures own_second { OwnSecondLaw }
    ensures last { LastScheduleLaw }
    ensures shared { SharedPastLaw }
{}

/// Soon after the last request its plan is played; and the first plan up to the first request.
pub fn settled_law()
    ensures played { SettledLaw }
    ensures soon { SettledSoonLaw }
    ensures plain { PlainLaw }
{}
