ghost use Rattle.std.specs.Prelude.{◌≡◌, ◌++◌, OnOk, length};
ghost use Rattle.sig_base.specs.Ratio.{fraction_of};
ghost use Rattle.delay_report.specs.WideRatio.{wide_fraction_of};
ghost use Rattle.plan_model.specs.Plan.{plan_of};
ghost use Rattle.plan_model.specs.FittedPlan.{junction_of, fitted_plan_of};
ghost use Rattle.report_text.specs.Pieces.{GrewBy};
ghost use Rattle.report_text.specs.PlanLines.{cycle_line, multiplier_line, reserve_line, group_line, group_lines, AreCycleLines, IsReserveLine};

use crate::figures::{put_ratio, put_reserve, reserve};
use delay_report::WideRatio;
use junction_model::Group;
use plan_model::{FittedPlan, Plan, plan_multiplier};
use sig_base::{NoMemory, Ratio, put, put_bytes, put_number};

#[tactic(auto, unfolding(crate::specs::PlanLines::cycle_line))]
fn put_cycle(text: &mut Vec<u8>, cycle: u32) -> Result<(), NoMemory>
    ensures { OnOk result (text.new.items ≡ text.old.items ++ cycle_line cycle) }
{
    put(text, "cycle ")?;
    put_number(text, cycle)?;
    put(text, "\n")
}

#[tactic(auto, unfolding(crate::specs::PlanLines::multiplier_line))]
fn put_multiplier(text: &mut Vec<u8>, multiplier: &Ratio) -> Result<(), NoMemory>
    ensures { OnOk result
        (text.new.items ≡ text.old.items ++ multiplier_line (fraction_of multiplier.now)) }
{
    put(text, "multiplier ")?;
    put_ratio(text, multiplier)?;
    put(text, "\n")
}

/// The cycle and the multiplier of a plan.
pub fn put_cycle_lines(text: &mut Vec<u8>, plan: &FittedPlan) -> Result<(), NoMemory>
    ensures { OnOk result (GrewBy (AreCycleLines (junction_of plan.now) (fitted_plan_of plan.now))
        text.old.items text.new.items) }
{
    let multiplier = plan_multiplier(plan);
    put_cycle(text, plan.plan().cycle())?;
    put_multiplier(text, &multiplier)
}

#[tactic(auto, unfolding(crate::specs::PlanLines::reserve_line))]
fn put_reserve_line(
    text: &mut Vec<u8>,
    multiplier: &Ratio,
    size: &WideRatio,
) -> Result<(), NoMemory>
    ensures { OnOk result (text.new.items ≡ text.old.items
        ++ reserve_line (fraction_of multiplier.now) (wide_fraction_of size.now)) }
{
    put(text, "reserve ")?;
    put_reserve(text, multiplier, size)?;
    put(text, " per cent\n")
}

/// The reserve capacity of a plan.
pub fn put_plan_reserve(text: &mut Vec<u8>, plan: &FittedPlan) -> Result<(), NoMemory>
    ensures { OnOk result (GrewBy (IsReserveLine (junction_of plan.now) (fitted_plan_of plan.now))
        text.old.items text.new.items) }
{
    let multiplier = plan_multiplier(plan);
    let size = reserve(&multiplier);
    put_reserve_line(text, &multiplier, &size)
}

#[tactic(auto, unfolding(crate::specs::PlanLines::group_line))]
fn put_group(text: &mut Vec<u8>, group: &Group, start: u32, green: u32) -> Result<(), NoMemory>
    ensures { OnOk result
        (text.new.items ≡ text.old.items ++ group_line group.now.label start green) }
{
    put(text, "group ")?;
    put_bytes(text, group.label.bytes())?;
    put(text, " start ")?;
    put_number(text, start)?;
    put(text, " green ")?;
    put_number(text, green)?;
    put(text, "\n")
}

/// A line for each group: when its green starts, and how long it lasts.
pub fn put_groups(text: &mut Vec<u8>, groups: &[Group], plan: &Plan) -> Result<(), NoMemory>
    requires starts { length (plan_of plan.now).starts ≡ length groups.now }
    requires greens { length (plan_of plan.now).greens ≡ length groups.now }
    ensures { OnOk result
        (text.new.items ≡ text.old.items ++ group_lines (plan_of plan.now) 0 groups.now) }
{
    let starts = plan.starts();
    let greens = plan.greens();
    for i in 0..groups.len() {
        put_group(text, &groups[i], starts[i], greens[i])?;
    }
    Ok(())
}
