//! The curve of reserve capacity over the cycle: what each cycle alone would give, with a
//! certificate for each, and the check of such a list of certificates.
//!
//! Each row is a design for the junction with one cycle alone. The plans of that junction are the
//! plans of that cycle, so its best multiplier is the greatest of the cycle, and a list is checked
//! row by row by the checker of designs. A curve costs a search for each cycle, each with the whole
//! budget; its check costs that of each certificate.
#![tactic(auto)]

mod checking;
mod designs;
mod laws;
mod lines;
mod reading;
mod row;
mod verdict;
mod writing;

pub use checking::check_curve;
pub use designs::curve;
pub use laws::{curve_law, one_judgement_law};
pub use row::{CurveRow, CurveRows};
pub use verdict::{CurveFault, CurveVerdict};
pub use writing::write_curve;
