//! A recorded list of what the heads showed, judged row by row: whether it is safe, and if not, the
//! first violation.
#![tactic(auto)]

mod fault;
mod judging;
mod laws;
mod lines;
mod memory;
mod monitor;
mod reading;
mod record;
mod sight;
mod verdict;
mod violation;

pub use fault::LogFault;
pub use judging::judge;
pub use laws::{log_laws, monitor_laws};
pub use lines::{log_fault_text, log_verdict_text};
pub use monitor::Monitor;
pub use verdict::LogVerdict;
pub use violation::Violation;
