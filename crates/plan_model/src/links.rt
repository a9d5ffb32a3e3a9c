ghost use Rattle.std.specs.Prelude.{◌↔◌, ◌<◌, length, IsTrue};
ghost use Rattle.conflict_matrix.specs.Links.{IsWithin};
ghost use Rattle.plan_model.specs.Fits.{KeepsLink, group_count};
ghost use Rattle.plan_model.specs.FirstFault.{FirstLinkOrNone, IsLinkBroken};
ghost use Rattle.plan_model.specs.Plan.{plan_of};
ghost use Rattle.plan_model.specs.Ranges.{IsInRange};

use crate::plan::Plan;
use conflict_matrix::Link;
use junction_model::Junction;

fn keeps_link(junction: &Junction, plan: &Plan, link: &Link) -> bool
    requires range { IsInRange junction.now (plan_of plan.now) }
    requires within { IsWithin (group_count junction.now) link.now }
    ensures { IsTrue result ↔ KeepsLink (plan_of plan.now) link.now }
{
    junction.rules();
    let due = (plan.starts()[link.leader as usize] + link.after) % plan.cycle();
    plan.starts()[link.follower as usize] == due
}

fn is_broken(junction: &Junction, plan: &Plan, link: usize) -> bool
    requires range { IsInRange junction.now (plan_of plan.now) }
    requires link { link < length junction.now.conflicts.links }
    ensures { IsTrue result ↔ IsLinkBroken junction.now (plan_of plan.now) link }
{
    junction.rules();
    !keeps_link(junction, plan, &junction.conflicts().links()[link])
}

/// The first link that doesn't hold.
pub fn first_broken_link(junction: &Junction, plan: &Plan) -> Option<u32>
    requires { IsInRange junction.now (plan_of plan.now) }
    ensures { FirstLinkOrNone junction.now (IsLinkBroken junction.now (plan_of plan.now)) result }
{
    for k in 0..junction.conflicts().links().len() {
        if is_broken(junction, plan, k) {
            return Some(k as u32);
        }
    }
    None
}
