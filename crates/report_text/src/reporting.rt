ghost use Rattle.std.specs.Prelude.{◌≡◌, OnOk, IfOk, option_map};
ghost use Rattle.plan_certificate.specs.Certificate.{certificate_of};
ghost use Rattle.plan_model.specs.FittedPlan.{junction_of, fitted_plan_of};
ghost use Rattle.report_text.specs.Pieces.{GrewBy};
ghost use Rattle.report_text.specs.Report.{ArePlanLines, ArePlanLinesIfAny, IsReport, IsPlanOf};

use crate::head::put_head;
use crate::lane_lines::put_lanes;
use crate::plan_lines::{put_cycle_lines, put_groups, put_plan_reserve};
use crate::stage_lines::put_stages;
use junction_model::Junction;
use plan_certificate::Certificate;
use plan_model::FittedPlan;
use sig_base::NoMemory;
use std::alloc::Global;

fn put_plan(alloc: Global, text: &mut Vec<u8>, plan: &FittedPlan) -> Result<(), NoMemory>
    ensures { OnOk result (GrewBy (ArePlanLines (junction_of plan.now) (fitted_plan_of plan.now))
        text.old.items text.new.items) }
{
    put_cycle_lines(text, plan)?;
    put_plan_reserve(text, plan)?;
    put_groups(text, plan.junction().groups(), plan.plan())?;
    put_lanes(text, plan)?;
    put_stages(alloc, text, plan)?;
    Ok(())
}

/// The report of a certificate, whose plan for this junction is lent beside it: the junction's title, the claim, the
/// least multiplier and the number of visited nodes; and of a plan its cycle in seconds, its multiplier and reserve
/// capacity in per cent, each group's start and green, each lane's degree of saturation and delay in seconds a vehicle
/// (`over` for a saturated lane), and the stages. Fractions are exact and in lowest terms.
pub fn report(
    alloc: Global,
    junction: &Junction,
    certificate: &Certificate,
    plan: Option<&FittedPlan>,
) -> Result<Vec<u8>, NoMemory>
    requires { IsPlanOf junction.now (certificate_of certificate.now) plan }
    ensures { IfOk result (λ text.
        IsReport junction.now (certificate_of certificate.now) text.items) }
{
    let mut text = Vec::new(alloc);
    put_head(&mut text, junction, certificate)?;
    if let Some(plan) = plan {
        put_plan(alloc, &mut text, plan)?;
    }
    Ok(text)
}
