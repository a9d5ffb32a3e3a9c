ghost use Rattle.std.specs.Prelude.{◌≡◌, ◌+◌, ◌<◌, length, All};
ghost use Rattle.sig_base.specs.Times.{IsCycle};
ghost use Rattle.junction_model.specs.Rules.{IsJunction};
ghost use Rattle.plan_model.specs.Fits.{group_count};
ghost use Rattle.plan_model.specs.Gap.{gap, IsSpaced};
ghost use Rattle.plan_model.specs.Plan.{plan_of};
ghost use Rattle.plan_model.specs.FittedPlan.{junction_of, fitted_plan_of};
ghost use Rattle.plan_stretch.specs.Stretch.{IsLeastRoom};
ghost use Rattle.plan_stretch.specs.RoomBelow.{IsRoomOrNone, FoundBelow};

use plan_model::{FittedPlan, Plan, gap_law};

/// What each plan that fits keeps: its gaps are long enough. It does nothing.
fn gaps_are_long_enough(plan: &FittedPlan)
    ensures rules { IsJunction (junction_of plan.now) }
    ensures spaced { IsSpaced (junction_of plan.now) (fitted_plan_of plan.now) }
{
    gap_law();
    plan.junction().rules();
    let _ = plan.plan();
}

/// The seconds from the start of group `i` to the next start of group `j`.
fn gap_between(plan: &Plan, i: usize, j: usize) -> u32
    requires i { i < length (plan_of plan.now).starts }
    requires j { j < length (plan_of plan.now).starts }
    requires early { All (λ start. start < (plan_of plan.now).cycle) (plan_of plan.now).starts }
    requires cycle { IsCycle (plan_of plan.now).cycle }
    ensures { result ≡ gap (plan_of plan.now) i j }
{
    (plan.starts()[j] + plan.cycle() - plan.starts()[i]) % plan.cycle()
}

/// The green that group `j` leaves group `i`: up to `j`'s next start, less the intergreen. `None`
/// exactly where the two don't conflict.
fn room(plan: &FittedPlan, i: usize, j: usize) -> Option<u32>
    requires i { i < group_count (junction_of plan.now) }
    requires j { j < group_count (junction_of plan.now) }
    ensures { IsRoomOrNone (junction_of plan.now) (fitted_plan_of plan.now) i j result }
{
    gaps_are_long_enough(plan);
    let intergreen = plan.junction().conflicts().intergreen(i, j)?;
    Some(gap_between(plan.plan(), i, j) - intergreen)
}

/// The least room with one group more.
fn with_group(plan: &FittedPlan, i: usize, j: usize, least: Option<u32>) -> Option<u32>
    requires i { i < group_count (junction_of plan.now) }
    requires j { j < group_count (junction_of plan.now) }
    requires below { FoundBelow (junction_of plan.now) (fitted_plan_of plan.now) i j least }
    ensures { FoundBelow (junction_of plan.now) (fitted_plan_of plan.now) i (j + 1) result }
{
    let Some(own) = room(plan, i, j) else {
        return least;
    };
    match least {
        Some(found) => Some(found.min(own)),
        None => Some(own),
    }
}

/// The least green that a conflicting group leaves group `i`.
pub fn least_room(plan: &FittedPlan, i: usize) -> u32
    requires { i < group_count (junction_of plan.now) }
    ensures { IsLeastRoom (junction_of plan.now) (fitted_plan_of plan.now) i result }
{
    let mut least = None;
    for j in 0..plan.junction().groups().len() {
        least = with_group(plan, i, j, least);
    }
    plan.junction().rules();
    match least {
        Some(room) => room,
        None => unreachable!(),
    }
}
