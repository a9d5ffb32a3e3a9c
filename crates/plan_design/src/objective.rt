ghost use Rattle.std.specs.Prelude.{◌≡◌};
ghost use Rattle.plan_design.specs.Design.{claim_of};

use plan_certificate::Claim;

/// What a design looks for.
#[derive(Clone, Copy, Debug, PartialEq, Eq)]
pub enum Objective {
    /// The greatest reserve capacity.
    Capacity,
    /// The shortest cycle.
    Cycle,
}

impl Objective {
    /// What is claimed of a plan that was found.
    pub fn claim(&self) -> Claim
        ensures { result ≡ claim_of self.now }
    {
        match self {
            Objective::Capacity => Claim::Capacity,
            Objective::Cycle => Claim::Cycle,
        }
    }
}
