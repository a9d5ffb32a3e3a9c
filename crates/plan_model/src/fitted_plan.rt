ghost use Rattle.std.specs.Prelude.{◌≡◌, ◌↔◌, IsOk};
ghost use Rattle.plan_model.specs.Fits.{HasEachGroup, Fits};
ghost use Rattle.plan_model.specs.Plan.{plan_of};

use crate::fault::PlanFault;
use crate::fit::fits;
use crate::plan::Plan;
use junction_model::Junction;

/// A plan that fits the junction that it borrows.
#[derive(Clone, Copy)]
pub struct FittedPlan<'j> {
    junction: &'j Junction,
    plan: Plan,
    pub ghost fitted: { Fits junction.now (plan_of plan) },
}

impl<'j> FittedPlan<'j> {
    ghost use Rattle.plan_model.specs.FittedPlan.{junction_of, fitted_plan_of, FittedOrFirstFault};

    /// The plan beside its junction where it fits, or the first fault as `fits` answers it.
    pub fn new(junction: &'j Junction, plan: Plan) -> Result<FittedPlan<'j>, PlanFault>
        requires { HasEachGroup junction.now (plan_of plan) }
        ensures exactly { IsOk result ↔ Fits junction.now (plan_of plan) }
        ensures answer { FittedOrFirstFault junction.now (plan_of plan) result }
    {
        fits(junction, &plan)?;
        Ok(FittedPlan { junction, plan })
    }

    /// The plan beside its junction, where a law tells that it fits.
    pub fn by_law(junction: &'j Junction, plan: Plan) -> FittedPlan<'j>
        requires { Fits junction.now (plan_of plan) }
        ensures junction { junction_of result ≡ junction.now }
        ensures plan { fitted_plan_of result ≡ plan_of plan }
    {
        FittedPlan { junction, plan }
    }

    /// The junction that the plan fits.
    pub fn junction(&self) -> &'j Junction
        ensures { result.now ≡ junction_of self.now }
    {
        self.junction
    }

    /// The plan, which fits that junction.
    pub fn plan(&self) -> &Plan
        ensures value { plan_of result.now ≡ fitted_plan_of self.now }
        ensures fits { Fits (junction_of self.now) (fitted_plan_of self.now) }
    {
        &self.plan
    }
}
