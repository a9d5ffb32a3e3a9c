//! The checker of certificates. It stands on none of the crates that search: it takes the claim, the least, the plan,
//! the budget and the trees from the certificate, works out all else from the junction, and answers the first broken
//! rule. Where none is broken, the claim is true of all plans of the junction, whoever wrote the certificate.
#![tactic(auto)]

mod basis;
mod checking;
mod coming;
mod laws;
mod node_rules;
mod plan_rules;
mod rule;
mod tree_rules;
mod verdict;

pub use checking::check;
pub use laws::{part_law, proof_law, rules_law};
pub use rule::Rule;
pub use verdict::Verdict;
