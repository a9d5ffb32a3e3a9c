//! What is true of all certificates. These functions do nothing: each is the place where its law is proved.
ghost use Rattle.certificate_checker.specs.Laws.{RulesLaw, ProofLaw, PartLaw};

use least_greens::closed_cycle_law;
use plan_model::fault_law;

/// A certificate that proves its claim breaks no rule.
pub fn rules_law()
    ensures { RulesLaw }
{
    fault_law();
}

/// What a certificate proves is true of all plans of the junction.
pub fn proof_law()
    ensures { ProofLaw }
{
    closed_cycle_law();
}

/// So is the part that a certificate of a stopped search proves.
pub fn part_law()
    ensures { PartLaw }
{
    closed_cycle_law();
}
