//! What is true of searches over the cycles of a junction, one after another. This function does nothing: it is the place
//! where its laws are proved.
ghost use Rattle.cycle_orders.specs.JoinedLaws.{BegunLaw, NoPlanLaw, BetterPlanLaw, StoppedLaw, GreatestLaw, ExhaustedLaw, ShortestLaw};

use least_greens::{closed_cycle_law, rising_law};

/// Cycles are taken upwards, and each is asked for a plan that beats the best one so far, or that reaches the least while
/// there is none. A later plan beats the earlier ones, so what closes their cycles closes them for its multiplier too; and
/// of two plans as good the one of the shorter cycle stays.
pub fn joined_law()
    ensures begun { BegunLaw }
    ensures no_plan { NoPlanLaw }
    ensures better { BetterPlanLaw }
    ensures stopped { StoppedLaw }
    ensures greatest { GreatestLaw }
    ensures exhausted { ExhaustedLaw }
    ensures shortest { ShortestLaw }
{
    rising_law();
    closed_cycle_law();
}
