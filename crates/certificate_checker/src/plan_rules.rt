ghost use Rattle.std.specs.Prelude.{◌≡◌, ◌↔◌, length, Some, IfSome, IsTrue, MatchResult};
ghost use Rattle.sig_base.specs.Fraction.{IsBelow};
ghost use Rattle.sig_base.specs.Ratio.{fraction_of};
ghost use Rattle.junction_model.specs.Junction.{JunctionView};
ghost use Rattle.plan_model.specs.Claims.{IsPlanMultiplier};
ghost use Rattle.plan_model.specs.Fits.{IsWithinLimits};
ghost use Rattle.plan_model.specs.Plan.{plan_of};
ghost use Rattle.plan_model.specs.SignalPlan.{PlanView};
ghost use Rattle.std.specs.Option.{option_map};
ghost use Rattle.plan_certificate.specs.Certificate.{certificate_of};
ghost use Rattle.plan_certificate.specs.Ranges.{IsInRange};
ghost use Rattle.plan_model.specs.Fits.{group_count};
ghost use Rattle.certificate_checker.specs.CertificateRules.{LacksItsPlan, IsFirstOfAll};
ghost use Rattle.certificate_checker.specs.ClaimTrees.{HasItsTrees, IsMultipleOf};
ghost use Rattle.certificate_checker.specs.PlanRules.{HasItsPlan};

use crate::rule::Rule;
use junction_model::Junction;
use plan_certificate::{Certificate, Claim};
use plan_model::{FittedPlan, Plan, fault_law, plan_multiplier};
use sig_base::Ratio;
use std::cmp::Ordering;

fn lacks_its_plan(claim: Claim, plan: &Option<Plan>) -> bool
    ensures { IsTrue result ↔ LacksItsPlan claim (option_map plan_of plan.now) }
{
    match claim {
        Claim::Capacity | Claim::Cycle => plan.is_none(),
        Claim::Infeasible => plan.is_some(),
        Claim::Stopped => false,
    }
}

fn is_below(a: &Ratio, b: &Ratio) -> bool
    ensures { IsTrue result ↔ IsBelow (fraction_of a.now) (fraction_of b.now) }
{
    a.compare(b) == Ordering::Less
}

/// The multiple of the trees' targets: the plan's multiplier where a plan is to be beaten, else the least.
fn multiple_of(certificate: &Certificate, multiplier: Ratio) -> Ratio
    ensures { (junction : JunctionView) (p : PlanView) →
        (certificate_of certificate.now).plan ≡ Some p →
        IsPlanMultiplier junction p (fraction_of multiplier) →
        IsMultipleOf junction (certificate_of certificate.now) result }
{
    match certificate.claim {
        Claim::Capacity | Claim::Stopped => multiplier,
        Claim::Cycle | Claim::Infeasible => certificate.least,
    }
}

/// The multiple of the trees' targets: the plan's multiplier where a plan is to be beaten, else the least. Or the first
/// broken rule of those that speak of the plan.
pub fn plan_rules(junction: &Junction, certificate: &Certificate) -> Result<Ratio, Rule>
    requires { IsInRange (group_count junction.now) (certificate_of certificate.now) }
    ensures { MatchResult result (HasItsPlan junction.now (certificate_of certificate.now))
        (λ rule. IsFirstOfAll junction.now (certificate_of certificate.now) rule 0 0) }
{
    fault_law();
    if lacks_its_plan(certificate.claim, &certificate.plan) {
        return Err(Rule::Plan);
    }
    let Some(plan) = certificate.plan else {
        return Ok(certificate.least);
    };
    let fitted = match FittedPlan::new(junction, plan) {
        Ok(fitted) => fitted,
        Err(fault) => return Err(Rule::Fit(fault)),
    };
    let multiplier = plan_multiplier(&fitted);
    if is_below(&multiplier, &certificate.least) {
        return Err(Rule::Least);
    }
    Ok(multiple_of(certificate, multiplier))
}

/// Whether there are as many trees as the claim asks for.
pub fn has_its_trees(junction: &Junction, certificate: &Certificate) -> bool
    requires { IfSome (certificate_of certificate.now).plan (IsWithinLimits junction.now) }
    ensures { IsTrue result ↔ HasItsTrees junction.now (certificate_of certificate.now).claim
        (certificate_of certificate.now).plan (length (certificate_of certificate.now).branches) }
{
    junction.rules();
    let trees = certificate.branches.items().len() as u64;
    let cycles = u64::from(junction.greatest_cycle() - junction.least_cycle()) + 1;
    match (certificate.claim, &certificate.plan) {
        (Claim::Stopped, _) => trees >= 1 && trees <= cycles,
        (Claim::Cycle, Some(plan)) => trees == u64::from(plan.cycle() - junction.least_cycle()),
        _ => trees == cycles,
    }
}
