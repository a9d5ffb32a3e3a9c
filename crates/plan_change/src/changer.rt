ghost use Rattle.std.specs.Prelude.{◌≡◌, ◌<◌, ◌≤◌, ◌+◌, ◌^◌, Some, [], ◌++◌, ◌∷◌};
ghost use Rattle.std.specs.Prelude.{OnOk, OnErr, option_map, slice_get};
ghost use Rattle.junction_model.specs.Rules.{IsJunction};
ghost use Rattle.plan_model.specs.Plan.{plan_of};
ghost use Rattle.plan_model.specs.FittedPlan.{junction_of, fitted_plan_of};
ghost use Rattle.plan_model.specs.Fits.{Fits, group_count};
ghost use Rattle.plan_change.specs.Requests.{requests_of, Agrees};

use crate::head::{Head, shown};
use crate::heads::{
    first_heads, kept_heads, later_heads, restarted_heads, seconds_to_begin, times_of,
};
use crate::request::Request;
use aspect_player::Aspect;
use junction_model::Junction;
use plan_model::{FittedPlan, Plan};
use sig_base::NoMemory;
use std::alloc::Global;

/// A plan that is played from second 0 on, and that gives way to another one at each request:
/// greens that stand, or that red-amber has announced, run out whole, a gap at least as long as
/// each intergreen follows, and the new plan begins. For each group it counts down the seconds of
/// one run of green and those to the start of the plan's next one.
#[derive(Drop)]
pub struct Changer<'j> {
    junction: &'j Junction,
    first: Plan,
    requests: Vec<Request>,
    second: u64,
    plan: Plan,
    settled: u64,
    heads: [Head; 16],
    pub ghost agrees: { Agrees junction.now (plan_of first) (requests_of requests.items) second
        (plan_of plan) settled heads },
}

impl<'j> Changer<'j> {
    ghost use Rattle.plan_change.specs.Changer.{junction_in, first_in, requests_in, second_in};
    ghost use Rattle.plan_change.specs.Changer.{display_in};
    ghost use Rattle.plan_change.specs.Changes.{settled_at};
    ghost use Rattle.plan_change.specs.Requests.{request_at};

    /// Stands at second 0 of the plan.
    pub fn new(alloc: Global, plan: &FittedPlan<'j>) -> Changer<'j>
        ensures junction { junction_in result ≡ junction_of plan.now }
        ensures first { first_in result ≡ fitted_plan_of plan.now }
        ensures requests { requests_in result ≡ [] }
        ensures second { second_in result ≡ 0 }
    {
        plan.junction().rules();
        Changer {
            junction: plan.junction(),
            first: *plan.plan(),
            requests: Vec::new(alloc),
            second: 0,
            plan: *plan.plan(),
            settled: 0,
            heads: first_heads(plan.junction(), plan.plan()),
        }
    }

    /// The second at which it stands.
    pub fn second(&self) -> u64
        ensures { result ≡ second_in self.now }
    {
        self.second
    }

    /// The requests so far, in their order.
    pub fn requests(&self) -> &[Request]
        ensures { requests_of result.now ≡ requests_in self.now }
    {
        self.requests.as_slice()
    }

    /// The junction whose plans are changed.
    pub(crate) fn junction(&self) -> &'j Junction
        ensures { result.now ≡ junction_in self.now }
    {
        self.junction
    }

    /// What the group shows at this second.
    pub fn aspect(&self, group: usize) -> Aspect
        requires { group < group_count (junction_in self.now) }
        ensures { Some result ≡ option_map
            (λ found. display_in self.now group found.times (second_in self.now))
            (slice_get (junction_in self.now).groups group) }
    {
        self.junction.rules();
        shown(&self.heads[group], &times_of(self.junction, group))
    }

    /// Goes one second on; the plan and the requests stay.
    pub fn tick(&mut self)
        requires { second_in self.old < 2 ^ 63 }
        ensures second { second_in self.new ≡ second_in self.old + 1 }
        ensures junction { junction_in self.new ≡ junction_in self.old }
        ensures first { first_in self.new ≡ first_in self.old }
        ensures requests { requests_in self.new ≡ requests_in self.old }
    {
        self.junction.rules();
        let heads = later_heads(self.junction, &self.plan, &self.heads);
        self.heads = heads;
        self.second += 1;
    }

    /// Asks for a plan at this second, whose aspects stay. After want of memory the changer is as
    /// before.
    pub fn change(&mut self, plan: &FittedPlan<'j>) -> Result<(), NoMemory>
        requires junction { junction_of plan.now ≡ junction_in self.old }
        requires second { second_in self.old ≤ 2 ^ 63 }
        ensures asked { OnOk result (requests_in self.new ≡ requests_in self.old
            ++ request_at (second_in self.old) (fitted_plan_of plan.now) ∷ []) }
        ensures kept { OnErr result (requests_in self.new ≡ requests_in self.old) }
        ensures junction { junction_in self.new ≡ junction_in self.old }
        ensures first { first_in self.new ≡ first_in self.old }
        ensures second { second_in self.new ≡ second_in self.old }
    {
        self.junction.rules();
        self.requests.push(Request {
            at: self.second,
            plan: *plan.plan(),
        })?;
        let kept = kept_heads(self.junction, &self.plan, &self.heads);
        let wait = seconds_to_begin(self.junction, &kept);
        let heads = restarted_heads(self.junction, plan.plan(), wait, &kept);
        self.heads = heads;
        self.plan = *plan.plan();
        self.settled = self.second + u64::from(wait + plan.plan().cycle());
        Ok(())
    }

    /// The second from which on, while no request comes, the plan of the last one is played as if
    /// nothing had been before: a cycle after it begins. 0 before the first request.
    pub fn settled(&self) -> u64
        ensures value { result
            ≡ settled_at (junction_in self.now) (first_in self.now) (requests_in self.now) }
        ensures none { requests_in self.now ≡ [] → result ≡ 0 }
    {
        self.settled
    }
}
