ghost use Rattle.std.specs.Prelude.{◌≡◌, ◌++◌, ◌/◌, ◌%◌, ◌^◌, ◌<◌, ◌≤◌, ◌==◌, OnOk, length};
ghost use Rattle.plan_model.specs.FittedPlan.{junction_of, fitted_plan_of};
ghost use Rattle.report_text.specs.Pieces.{GrewBy};
ghost use Rattle.report_text.specs.StageLines.{name_if, names_in, stage_times, stage_line, stage_lines, AreStageLines};

use junction_model::Group;
use plan_model::FittedPlan;
use sig_base::{Label, NoMemory, put, put_bytes, put_number};
use stage_builder::{Stage, stages};
use std::alloc::Global;

fn is_in(set: u16, group: usize) -> bool
    requires { group < 16 }
    ensures { result ≡ (set / 2 ^ group % 2 == 1) }
{
    (set >> group) & 1 == 1
}

/// A blank and the name, where the group is in the set.
fn put_name_if(text: &mut Vec<u8>, chosen: bool, label: &Label) -> Result<(), NoMemory>
    ensures { OnOk result (text.new.items ≡ text.old.items ++ name_if chosen label.now) }
{
    if !chosen {
        return Ok(());
    }
    put(text, " ")?;
    put_bytes(text, label.bytes())
}

/// The names of the groups in the set.
fn put_names(text: &mut Vec<u8>, set: u16, groups: &[Group]) -> Result<(), NoMemory>
    requires { length groups.now ≤ 16 }
    ensures { OnOk result (text.new.items ≡ text.old.items ++ names_in set 0 groups.now) }
{
    for group in 0..groups.len() {
        put_name_if(text, is_in(set, group), &groups[group].label)?;
    }
    Ok(())
}

#[tactic(auto, unfolding(crate::specs::StageLines::stage_times))]
fn put_times(text: &mut Vec<u8>, number: usize, stage: &Stage) -> Result<(), NoMemory>
    ensures { OnOk result (text.new.items ≡ text.old.items
        ++ stage_times number stage.now.first stage.now.seconds) }
{
    put(text, "stage ")?;
    put_number(text, number)?;
    put(text, " first ")?;
    put_number(text, stage.first)?;
    put(text, " seconds ")?;
    put_number(text, stage.seconds)
}

#[tactic(auto, unfolding(crate::specs::StageLines::stage_line))]
fn put_stage(
    text: &mut Vec<u8>,
    groups: &[Group],
    number: usize,
    stage: &Stage,
) -> Result<(), NoMemory>
    requires { length groups.now ≤ 16 }
    ensures { OnOk result
        (text.new.items ≡ text.old.items ++ stage_line groups.now number stage.now) }
{
    put_times(text, number, stage)?;
    put(text, " groups")?;
    put_names(text, stage.groups, groups)?;
    put(text, "\n")
}

/// A line for each of these stages.
fn put_stage_list(text: &mut Vec<u8>, groups: &[Group], stages: &[Stage]) -> Result<(), NoMemory>
    requires groups { length groups.now ≤ 16 }
    ensures { OnOk result
        (text.new.items ≡ text.old.items ++ stage_lines groups.now 1 stages.now) }
{
    for place in 0..stages.len() {
        put_stage(text, groups, place + 1, &stages[place])?;
    }
    Ok(())
}

/// A line for each stage of the plan.
pub fn put_stages(alloc: Global, text: &mut Vec<u8>, plan: &FittedPlan) -> Result<(), NoMemory>
    ensures { OnOk result (GrewBy (AreStageLines (junction_of plan.now) (fitted_plan_of plan.now))
        text.old.items text.new.items) }
{
    plan.junction().rules();
    let found = stages(alloc, plan)?;
    put_stage_list(text, plan.junction().groups(), found.items())
}
