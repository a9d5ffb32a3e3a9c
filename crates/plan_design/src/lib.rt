//! A design: the search for the best plan of a junction, the stretch of that plan, and the certificate that shows what was
//! found. What a stretched plan has more of, a greater multiplier, only raises the targets of the trees, and a walk that
//! closes an order for a target closes it for every greater one; so the trees that were found serve for it.
#![tactic(auto)]

mod designing;
mod laws;
mod objective;
mod outcome;

pub use designing::design;
pub use laws::shown_law;
pub use objective::Objective;
pub use outcome::Design;
