use constraint_cycles::Tree;
use plan_model::FittedPlan;

/// What a search looks for.
#[derive(Clone, Copy, Debug, PartialEq, Eq)]
pub enum Mode {
    /// A plan that meets the target: the search ends with the first one.
    First,
    /// The plan of the greatest multiplier: each plan that is found has to be beaten by the next one.
    Best,
}

/// Whether a session goes on.
#[derive(Clone, Copy, Debug, PartialEq, Eq)]
pub enum Progress {
    /// As many nodes were visited as were asked for, and an unvisited one is left.
    Going,
    /// No unvisited node is left.
    Ended,
}

/// How a search ends.
#[derive(Drop)]
pub enum CycleAnswer<'j> {
    /// The tree closes the cycle for the target; or, with the best plan of the cycle, for beating that plan. So no plan of
    /// the cycle meets the target, or beats that plan.
    Closed(Tree, Option<FittedPlan<'j>>),
    /// In mode `First`: a plan that meets the target, that of the first order which decides each item and which starts
    /// meet. Of other plans this says nothing.
    Found(FittedPlan<'j>),
    /// The budget was spent before the tree's last nodes were visited. In mode `Best` the last plan that was found, if
    /// any.
    Stopped(Tree, Option<FittedPlan<'j>>),
}
