//! What is true of all sessions. This function does nothing: it is the place where its law is proved.
ghost use Rattle.cycle_orders.specs.Advances.{AdvancesLaw};

/// After calls of `advance` with sum n at most n nodes were visited, and fewer only where none is left.
pub fn advances_law()
    ensures { AdvancesLaw }
{}
