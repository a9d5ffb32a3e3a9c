//! What is true of all sets of lanes. This function does nothing: it is the place where its laws
//! are proved.
ghost use Rattle.bottleneck_lanes.specs.Laws.{GreaterLaw, FreeLaw, SmallerSetLaw, LastLaneLaw};
ghost use Rattle.bottleneck_lanes.specs.Laws.{UnbeatenLaw, BesideLaw};

use least_greens::{closed_cycle_law, rising_law};

/// A plan beats a multiple over a set of lanes where its least multiplier over the set is greater,
/// or the set has no arrivals; it does so over every smaller set. Trees that close each cycle for
/// beating a multiple show that no plan does, and those of a design for the greatest reserve
/// capacity close them for beating its multiplier.
pub fn critical_law()
    ensures greater { GreaterLaw }
    ensures free { FreeLaw }
    ensures smaller { SmallerSetLaw }
    ensures last { LastLaneLaw }
    ensures unbeaten { UnbeatenLaw }
    ensures beside { BesideLaw }
{
    closed_cycle_law();
    rising_law();
}
