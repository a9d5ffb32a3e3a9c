//! The text of a junction file, a TOML document: read strictly, so that each file gives either the
//! junction that its bytes spell or the first of its faults with its place, and printed so that it
//! reads back.
#![tactic(auto)]

mod document;
mod faults;
mod laws;
mod printing;
mod reading;

pub use faults::{JunctionFault, Key, Kind, Part, Place};
pub use laws::reading_laws;
pub use printing::{fault_line, print};
pub use reading::read;
