//! What is true of all forests that a search makes. This function does nothing: it is the place where its laws are proved.
ghost use Rattle.plan_design.specs.DesignLaws.{GreatestShownLaw, ShortestShownLaw, ExhaustedShownLaw, StoppedShownLaw, PassedShownLaw, ShownRangeLaw, StoppedRangeLaw};

use certificate_checker::{part_law, proof_law};
use conflict_matrix::pair_laws;
use constraint_cycles::root_law;
use least_greens::{closed_cycle_law, rising_law};
use plan_model::{fault_law, own_order_law};

/// The forest of a search makes a certificate with the stretched plan: its trees close their cycles for the targets beside
/// that plan too, since needs only rise; and it meets the orders that the plan met.
pub fn shown_law()
    ensures greatest { GreatestShownLaw }
    ensures shortest { ShortestShownLaw }
    ensures exhausted { ExhaustedShownLaw }
    ensures stopped { StoppedShownLaw }
    ensures passed { PassedShownLaw }
    ensures shown_range { ShownRangeLaw }
    ensures stopped_range { StoppedRangeLaw }
{
    rising_law();
    closed_cycle_law();
    proof_law();
    part_law();
    fault_law();
    pair_laws();
    root_law();
    own_order_law();
}
