//! One call a design: the search that the objective asks for, the stretch of its plan, and the certificate of both.
ghost use Rattle.std.specs.Prelude.{◌≡◌, ◌≤◌, ◌<◌, IfOk, IfSome, option_map};
ghost use Rattle.sig_base.specs.Ratio.{fraction_of};
ghost use Rattle.junction_model.specs.Covers.{cover_of};
ghost use Rattle.plan_model.specs.FittedPlan.{fitted_plan_of};
ghost use Rattle.plan_model.specs.Plan.{plan_of};
ghost use Rattle.plan_certificate.specs.Certificate.{certificate_of};
ghost use Rattle.plan_certificate.specs.Ranges.{IsLeast};
ghost use Rattle.cycle_orders.specs.Forest.{IsExhausted, IsFoundAmong, IsStoppedAt};
ghost use Rattle.cycle_orders.specs.JunctionAnswer.{IfOptimal, IfInfeasible, IfStopped, IsStop, IsPlanOf, IsWithinBudget, CarriesNoPlan, carried_by};
ghost use Rattle.plan_design.specs.Design.{IsDesign, IsOwnPlan};
ghost use Rattle.plan_design.specs.DesignLaws.{IsBest, AreStretched, certified};

use crate::laws::shown_law;
use crate::objective::Objective;
use crate::outcome::Design;
use capacity_search::capacity;
use constraint_cycles::Forest;
use cycle_orders::Answer;
use cycle_search::shortest;
use junction_model::Junction;
use plan_certificate::{Certificate, Claim};
use plan_model::{FittedPlan, Plan};
use plan_stretch::stretch;
use sig_base::{NoMemory, Ratio};
use std::alloc::Global;

/// The answer of the search that looks for this.
fn searched<'j>(
    alloc: Global,
    junction: &'j Junction,
    objective: Objective,
    least: Ratio,
    budget: u64,
) -> Result<Answer<'j>, NoMemory>
    ensures best { IfOk result (λ answer. IfOptimal answer
        (IsBest objective junction.now least)) }
    ensures exhausted { IfOk result (λ answer. IfInfeasible answer
        (IsExhausted junction.now least)) }
    ensures stopped { IfOk result (λ answer. IfStopped answer
        (IsStoppedAt junction.now least budget)) }
    ensures without { objective ≡ Objective.Cycle → IfOk result CarriesNoPlan }
    ensures found { IfOk result (λ answer. IfStopped answer
        (λ p forest. IfSome p (IsFoundAmong junction.now forest))) }
    ensures within { IfOk result (IsWithinBudget budget) }
    ensures covered { IfOk result (λ answer. IsStop answer → budget < cover_of junction.now) }
    ensures plan { IfOk result (λ answer. IfSome (carried_by answer)
        (IsPlanOf junction.now least)) }
{
    match objective {
        Objective::Capacity => capacity(alloc, junction, least, budget),
        Objective::Cycle => shortest(alloc, junction, least, budget),
    }
}

/// The plan with its longest greens.
fn stretched<'j>(plan: Option<FittedPlan<'j>>) -> Option<FittedPlan<'j>>
    ensures { AreStretched plan.entry result }
{
    Some(stretch(plan?))
}

/// The plan without its junction.
fn plan_alone(plan: Option<FittedPlan>) -> Option<Plan>
    ensures { option_map plan_of result ≡ option_map fitted_plan_of plan.entry }
{
    Some(*plan?.plan())
}

/// The certificate of these parts, and its plan.
fn certificate_with<'j>(
    claim: Claim,
    plan: Option<FittedPlan<'j>>,
    branches: Forest,
    least: Ratio,
    budget: u64,
) -> Design<'j>
    ensures certificate { certificate_of result.certificate ≡
        certified least budget claim (option_map fitted_plan_of plan.entry) branches }
    ensures plan { result.plan ≡ plan.entry }
{
    Design {
        certificate: Certificate {
            branches,
            budget,
            claim,
            least,
            plan: plan_alone(plan),
        },
        plan,
    }
}

/// The best plan by this objective, with greens that are as long as its starts allow, and the certificate of it: its claim
/// is that of the objective, or that no plan meets the least multiple, or that the search was stopped when as many nodes as
/// the budget were visited. The plan has group 0 at second 0. Of a stopped search for the shortest cycle there is none, of
/// one for the greatest reserve capacity the best one so far, if any.
pub fn design<'j>(
    alloc: Global,
    junction: &'j Junction,
    objective: Objective,
    least: Ratio,
    budget: u64,
) -> Result<Design<'j>, NoMemory>
    requires least { IsLeast (fraction_of least) }
    requires budget { 1 ≤ budget }
    ensures design { IfOk result (λ d. IsDesign junction.now objective least budget
        (certificate_of d.certificate)) }
    ensures plan { IfOk result (λ d. IsOwnPlan junction.now
        (certificate_of d.certificate) d.plan) }
{
    shown_law();
    junction.rules();
    match searched(alloc, junction, objective, least, budget)? {
        Answer::Optimal(plan, trees) => {
            let plan = Some(stretch(plan));
            Ok(certificate_with(objective.claim(), plan, trees, least, budget))
        }
        Answer::Infeasible(trees) => {
            Ok(certificate_with(Claim::Infeasible, None, trees, least, budget))
        }
        Answer::Stopped(plan, trees) => {
            let plan = stretched(plan);
            Ok(certificate_with(Claim::Stopped, plan, trees, least, budget))
        }
    }
}
