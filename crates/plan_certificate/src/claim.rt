ghost use Rattle.std.specs.Prelude.{◌≡◌};
ghost use Rattle.plan_certificate.specs.Text.{claim_word};

/// What a certificate claims of a junction.
#[derive(Clone, Copy, Debug, PartialEq, Eq)]
pub enum Claim {
    /// Its plan meets the least multiplier, no plan has a greater multiplier, and none of a shorter cycle has as great a
    /// one.
    Capacity,
    /// Its plan meets the least multiplier, and no plan of a shorter cycle does.
    Cycle,
    /// No plan meets the least multiplier.
    Infeasible,
    /// The search was stopped when its budget was spent.
    Stopped,
}

impl Claim {
    /// The word that is written and printed.
    pub fn word(&self) -> &'static str
        ensures { result.now ≡ claim_word self.now }
    {
        match self {
            Claim::Capacity => "capacity",
            Claim::Cycle => "cycle",
            Claim::Infeasible => "infeasible",
            Claim::Stopped => "stopped",
        }
    }
}
