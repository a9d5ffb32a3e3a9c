use crate::plan_list::PlanList;
use constraint_cycles::Forest;
use sig_base::LaneSet;

/// A set of lanes that alone holds the multiplier down, and what shows that none of them can be
/// left out.
#[derive(Drop)]
pub struct CriticalLanes {
    /// The set: no plan has a greater multiplier over it than the best plan over all lanes.
    /// Something arrives on each of its lanes.
    pub lanes: LaneSet,
    /// A plan for each lane of the set, by rising lanes, with a greater multiplier over the set
    /// without that lane; where the set has one lane, any plan that fits.
    pub plans: PlanList,
    /// A tree for each cycle, upwards, which closes it for beating the best plan's multiplier over
    /// the set.
    pub branches: Forest,
}

/// How the search for critical lanes ends.
#[derive(Drop)]
pub enum BottleAnswer {
    /// Each lane on which something arrives was tested.
    Found(CriticalLanes),
    /// The budget of one test was spent: the lanes that were left, with the one under test, that
    /// lane, and the trees of its test.
    Stopped(LaneSet, u32, Forest),
}
