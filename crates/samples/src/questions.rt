ghost use Rattle.std.specs.Prelude.{◌<◌, ◌↔◌, All, IsTrue};
ghost use Rattle.sig_base.specs.Times.{IsCycle, IsGreenNeed};
ghost use Rattle.conflict_matrix.specs.Conflicts.{matrix_of};
ghost use Rattle.constraint_cycles.specs.Edge.{AreNeeds};
ghost use Rattle.plan_model.specs.Fits.{HasEachGroup};
ghost use Rattle.plan_model.specs.Plan.{plan_of};

use conflict_matrix::Conflicts;
use junction_model::Junction;
use plan_model::Plan;
use sig_base::{LONGEST_CYCLE, NO_GREEN};

/// Whether it is a cycle in seconds.
pub fn is_cycle(cycle: u32) -> bool
    ensures { IsTrue result ↔ IsCycle cycle }
{
    cycle >= 1 && cycle <= LONGEST_CYCLE
}

fn is_need(need: u32) -> bool
    ensures { IsTrue result ↔ IsGreenNeed need }
{
    need >= 1 && need <= NO_GREEN
}

/// Whether weights may be asked for this cycle and these needs, of which each group has one.
pub fn are_asked(conflicts: &Conflicts, needs: &[u32; 16], cycle: u32) -> bool
    ensures needs { IsTrue result → AreNeeds (matrix_of conflicts.now) needs.now }
    ensures cycle { IsTrue result → IsCycle cycle }
{
    let has_each = conflicts.groups() <= needs.len();
    has_each && is_cycle(cycle) && needs.iter().all(|need| is_need(*need))
}

/// Whether all are numbers of groups.
pub fn are_below(groups: &[u8], number: usize) -> bool
    ensures { IsTrue result → All (λ g. g < number) groups.now }
{
    groups.iter().all(|group| usize::from(*group) < number)
}

/// Whether the plan has a start and a green for each group.
pub fn has_each_group(junction: &Junction, plan: &Plan) -> bool
    ensures { IsTrue result ↔ HasEachGroup junction.now (plan_of plan.now) }
{
    plan.starts().len() == junction.groups().len() && plan.greens().len() == junction.groups().len()
}
