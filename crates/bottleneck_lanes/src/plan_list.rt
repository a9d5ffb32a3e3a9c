ghost use Rattle.std.specs.Prelude.{◌≡◌, ◌++◌, ◌∷◌, [], map, OnOk, OnErr};
ghost use Rattle.plan_model.specs.Plan.{plan_of};

use plan_model::Plan;
use sig_base::NoMemory;
use std::alloc::Global;
use std::marker::Model;

/// Plans, one for each lane of a set by rising lanes. Contracts see it as a list.
#[derive(Debug, Drop)]
pub struct PlanList {
    plans: Vec<Plan>,
}

impl Model for PlanList {
    ghost use Rattle.std.specs.Prelude.{List, map};
    ghost use Rattle.plan_model.specs.SignalPlan.{PlanView};
    ghost use Rattle.plan_model.specs.Plan.{plan_of};

    ghost Value = { List PlanView };

    ghost view = { λ s. map plan_of s.plans.items };
}

impl PlanList {
    pub(crate) fn new(alloc: Global) -> PlanList
        ensures { result ≡ [] }
    {
        PlanList {
            plans: Vec::new(alloc),
        }
    }

    /// One more plan at the end; after want of memory the list is as before.
    pub(crate) fn push(&mut self, plan: Plan) -> Result<(), NoMemory>
        ensures ok { OnOk result (self.new ≡ self.old ++ plan_of plan ∷ []) }
        ensures kept { OnErr result (self.new ≡ self.old) }
    {
        self.plans.push(plan)?;
        Ok(())
    }

    /// The plans, by rising lanes.
    pub fn items(&self) -> &[Plan]
        ensures { map plan_of result.now ≡ self.now }
    {
        self.plans.as_slice()
    }
}
