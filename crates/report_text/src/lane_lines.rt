ghost use Rattle.std.specs.Prelude.{◌≡◌, ◌++◌, OnOk, length, option_map};
ghost use Rattle.sig_base.specs.Ratio.{fraction_of};
ghost use Rattle.delay_report.specs.WideRatio.{wide_fraction_of};
ghost use Rattle.plan_model.specs.FittedPlan.{junction_of, fitted_plan_of};
ghost use Rattle.junction_model.specs.Rules.{IsLane};
ghost use Rattle.report_text.specs.Pieces.{GrewBy};
ghost use Rattle.report_text.specs.LaneLine.{lane_name, lane_line, IsLaneLine, AreLaneLines};

use crate::figures::{put_delay, put_ratio};
use delay_report::{WideRatio, delay};
use flow_model::{Lane, saturation};
use plan_model::{FittedPlan, effective_green_of};
use sig_base::{Label, NoMemory, Ratio, put, put_bytes};

fn put_lane_name(text: &mut Vec<u8>, label: &Label) -> Result<(), NoMemory>
    ensures { OnOk result (text.new.items ≡ text.old.items ++ lane_name label.now) }
{
    put(text, "lane ")?;
    put_bytes(text, label.bytes())?;
    put(text, " saturation ")
}

#[tactic(auto, unfolding(crate::specs::LaneLine::lane_line))]
fn put_lane_line(
    text: &mut Vec<u8>,
    label: &Label,
    saturation: &Ratio,
    delay: Option<WideRatio>,
) -> Result<(), NoMemory>
    ensures { OnOk result (text.new.items ≡ text.old.items ++ lane_line label.now
        (fraction_of saturation.now) (option_map wide_fraction_of delay)) }
{
    put_lane_name(text, label)?;
    put_ratio(text, saturation)?;
    put(text, " delay ")?;
    put_delay(text, delay)?;
    put(text, "\n")
}

fn put_lane(text: &mut Vec<u8>, plan: &FittedPlan, lane: &Lane) -> Result<(), NoMemory>
    requires { IsLane (length (junction_of plan.now).groups) lane.now }
    ensures { OnOk result
        (GrewBy (IsLaneLine (junction_of plan.now) (fitted_plan_of plan.now) lane.now)
        text.old.items text.new.items) }
{
    plan.junction().rules();
    let effective = effective_green_of(plan, lane.group as usize);
    let cycle = plan.plan().cycle();
    let saturation = saturation(lane, effective, cycle);
    let delay = delay(lane, effective, cycle);
    put_lane_line(text, &lane.label, &saturation, delay)
}

/// A line for each lane: its degree of saturation and its delay.
pub fn put_lanes(text: &mut Vec<u8>, plan: &FittedPlan) -> Result<(), NoMemory>
    ensures { OnOk result (GrewBy (AreLaneLines (junction_of plan.now) (fitted_plan_of plan.now))
        text.old.items text.new.items) }
{
    plan.junction().rules();
    for lane in plan.junction().lanes() {
        put_lane(text, plan, lane)?;
    }
    Ok(())
}
