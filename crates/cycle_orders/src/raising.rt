//! Raises the running target at a full order: each plan has to be beaten by the next one, until a walk closes the order.
ghost use Rattle.std.specs.Prelude.{◌≡◌, ◌≤◌, length};
ghost use Rattle.least_greens.specs.Targets.{IsNotAbove};
ghost use Rattle.cycle_orders.specs.Place.{AreStartsHere};
ghost use Rattle.cycle_orders.specs.Raised.{IsRaised};
ghost use Rattle.cycle_orders.specs.Search.{WasRunning};
ghost use Rattle.cycle_orders.specs.Standing.{IsPlaceFor};
ghost use Rattle.cycle_orders.specs.declared.answer.Mode.TheVariants as mode;
ghost use Rattle.cycle_orders.specs.declared.place.Standing.TheVariants.{At};

use crate::place::Place;
use crate::question::Search;
use constraint_cycles::{Walk, agreeing_law};
use difference_system::Solved;
use least_greens::{NeedClosure, beaten_law, need_law, needs_law, plan_need_law, target_law};
use plan_model::{FittedPlan, multiplier};
use sig_base::Target;

/// The last plan of a full order, the target of beating it, and a walk that closes the order for that.
#[derive(Clone, Copy)]
pub struct Raised<'j> {
    pub plan: FittedPlan<'j>,
    pub target: Target,
    pub walk: Walk,
}

/// Each plan has a green below the need for beating it, so some need rises each time; none passes 301, so this ends.
pub fn raise_until_closed<'j, F: Fn(Target, u32, usize) -> u32 + NeedClosure + Drop>(
    search: &Search<'j, F>,
    target: Target,
    place: &mut Place,
    found: &[u32; 16],
) -> Raised<'j>
    requires best { search.now.mode ≡ mode.Best }
    requires risen { IsNotAbove search.now.target target }
    requires running { WasRunning search.now target }
    requires place { IsPlaceFor search.now target place.old }
    requires some { 1 ≤ length place.old.coming }
    requires entered { place.old.standing ≡ At }
    requires full { AreStartsHere place.old found.now }
    ensures { IsRaised search.now target place.old place.new result }
{
    need_law();
    needs_law();
    plan_need_law();
    target_law();
    beaten_law();
    agreeing_law();
    search.rule.junction().rules();
    let mut running = target;
    let mut starts = *found;
    loop {
        let plan = search.plan_of(running, &starts);
        let Some(ratio) = multiplier(&plan, search.rule.lanes()) else {
            unreachable!();
        };
        running = Target::Beat(ratio);
        place.raise(&search.needs(running));
        match place.solve() {
            Solved::Starts(later) => starts = later,
            Solved::Walk(walk) => {
                return Raised {
                    plan,
                    target: running,
                    walk,
                };
            }
        }
    }
}
