//! The texts that an engineer reads: the report of a certificate and its plan, the line of a verdict or a refusal, and
//! the summary of a sample. Each is defined byte by byte.
#![tactic(auto)]

mod figures;
mod head;
mod lane_lines;
mod plan_lines;
mod refusal;
mod reporting;
mod sample_lines;
mod stage_lines;
mod verdict_words;

pub use refusal::{Refusal, refusal_text};
pub use reporting::report;
pub use sample_lines::summary;
pub use verdict_words::verdict_text;
