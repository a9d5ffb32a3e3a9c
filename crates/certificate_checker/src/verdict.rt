use crate::rule::Rule;

/// What a check finds.
#[derive(Clone, Copy, Debug, PartialEq, Eq)]
pub enum Verdict {
    /// The certificate proves its claim.
    Proved,
    /// The certificate is one of a stopped search, and no rule is broken.
    Partial,
    /// The first broken rule, the cycle of its tree in seconds, and the place of the node in the tree, from 0. Both
    /// numbers are 0 for a rule of the whole certificate.
    Broken(Rule, u32, u64),
}
