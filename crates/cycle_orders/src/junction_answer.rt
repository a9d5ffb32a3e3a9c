use constraint_cycles::Forest;
use plan_model::FittedPlan;

/// How a search over all cycles of a junction ends. The trees are those of the least cycle and upwards without gaps.
#[derive(Drop)]
pub enum Answer<'j> {
    /// The best plan, and trees which show that there is no better one.
    Optimal(FittedPlan<'j>, Forest),
    /// No plan is good enough, and the tree of each cycle shows it.
    Infeasible(Forest),
    /// The budget was spent before the last nodes were visited. The best plan so far, if any.
    Stopped(Option<FittedPlan<'j>>, Forest),
}
