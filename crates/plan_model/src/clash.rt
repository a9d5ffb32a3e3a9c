ghost use Rattle.std.specs.Prelude.{◌≡◌, ◌↔◌, ◌<◌, ◌≤◌, length, IsTrue};
ghost use Rattle.sig_base.specs.First.{NoneBelow};
ghost use Rattle.sig_base.specs.Times.{IsCycle};
ghost use Rattle.plan_model.specs.Fits.{ClashesAt, group_count};
ghost use Rattle.plan_model.specs.FirstFault.{StartsLate, FirstSecondOrNone, FirstPartnerOrNone, FirstClashOrNone};
ghost use Rattle.plan_model.specs.Plan.{plan_of};
ghost use Rattle.plan_model.specs.Ranges.{IsInRange};

use crate::green::{is_green, is_green_within};
use crate::plan::Plan;
use junction_model::Junction;

/// Whether group `i` is green at the second, and `j` then or at most the wait later.
fn clashes_at(plan: &Plan, wait: u32, i: usize, j: usize, second: u32) -> bool
    requires i { i < length (plan_of plan.now).starts }
    requires j { j < length (plan_of plan.now).starts }
    requires greens { length (plan_of plan.now).greens ≡ length (plan_of plan.now).starts }
    requires early { NoneBelow (StartsLate (plan_of plan.now)) (length (plan_of plan.now).starts) }
    requires cycle { IsCycle (plan_of plan.now).cycle }
    requires wait { wait ≤ 60 }
    requires second { second < 300 }
    ensures { IsTrue result ↔ ClashesAt (plan_of plan.now) wait i j second }
{
    is_green(plan, i, second) && is_green_within(plan, j, wait, second)
}

/// The first second at which group `i` is green, and `j` then or within the intergreen from `i` to `j`.
fn first_second(junction: &Junction, plan: &Plan, i: usize, j: usize) -> Option<u32>
    requires range { IsInRange junction.now (plan_of plan.now) }
    requires i { i < group_count junction.now }
    requires j { j < group_count junction.now }
    ensures { FirstSecondOrNone junction.now (plan_of plan.now) i j result }
{
    junction.rules();
    let wait = junction.conflicts().intergreen(i, j)?;
    for second in 0..plan.cycle() {
        if clashes_at(plan, wait, i, j, second) {
            return Some(second);
        }
    }
    None
}

/// The first group with which group `i` clashes, and the first second at which it does.
fn first_partner(junction: &Junction, plan: &Plan, i: usize) -> Option<(u32, u32)>
    requires range { IsInRange junction.now (plan_of plan.now) }
    requires i { i < group_count junction.now }
    ensures { FirstPartnerOrNone junction.now (plan_of plan.now) i result }
{
    for j in 0..junction.groups().len() {
        if let Some(second) = first_second(junction, plan, i, j) {
            return Some((j as u32, second));
        }
    }
    None
}

/// The first group that clashes, its first partner, and their first second.
pub fn first_clash(junction: &Junction, plan: &Plan) -> Option<(u32, u32, u32)>
    requires { IsInRange junction.now (plan_of plan.now) }
    ensures { FirstClashOrNone junction.now (plan_of plan.now) result }
{
    for i in 0..junction.groups().len() {
        if let Some((j, second)) = first_partner(junction, plan, i) {
            return Some((i as u32, j, second));
        }
    }
    None
}
