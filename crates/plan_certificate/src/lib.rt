//! Certificates: a claim on a junction and what shows it, and their text, a JSON object, both ways. Each text gives
//! either the certificate that its bytes spell or its first fault, and what is written reads back as it was.
#![tactic(auto)]

mod branches;
mod certificate;
mod claim;
mod fault;
mod laws;
mod member;
mod plan_entry;
mod reader;
mod shape;
mod version;
mod writer;

pub use certificate::Certificate;
pub use claim::Claim;
pub use fault::CertificateFault;
pub use laws::text_laws;
pub use reader::read;
pub use writer::{forest_value, plan_value, write};
