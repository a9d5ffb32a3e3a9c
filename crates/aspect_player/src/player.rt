ghost use Rattle.std.specs.Prelude.{◌≡◌, ◌<◌, ◌≤◌, ◌+◌, ◌-◌, ◌^◌, Some, option_map, slice_get, if◌then◌else◌, ◌==◌};
ghost use Rattle.plan_model.specs.FittedPlan.{junction_of, fitted_plan_of};
ghost use Rattle.plan_model.specs.Fits.{group_count};
ghost use Rattle.aspect_player.specs.Counts.{CountsOf};
ghost use Rattle.aspect_player.specs.Phases.{aspect_by};

use crate::aspect::Aspect;
use plan_model::FittedPlan;
use sig_base::GroupTimes;

/// A plan that is played from second 0 on. For each group it counts the seconds to the next start
/// of its green, so no second asks for a remainder.
#[derive(Drop)]
pub struct Player<'p, 'j> {
    plan: &'p FittedPlan<'j>,
    second: u64,
    left: [u32; 16],
    pub ghost counts: { CountsOf plan.now second left },
}

fn first_left(start: u32, cycle: u32) -> u32
    ensures { result ≡ (if start == 0 then cycle else start) }
{
    if start == 0 { cycle } else { start }
}

fn next_left(left: u32, cycle: u32) -> u32
    requires { 1 ≤ left }
    ensures { result ≡ (if left == 1 then cycle else left - 1) }
{
    if left == 1 { cycle } else { left - 1 }
}

/// The aspect of a group so many seconds before its next start.
fn shown(left: u32, cycle: u32, green: u32, times: &GroupTimes) -> Aspect
    requires left { left ≤ 300 }
    requires green { green ≤ 300 }
    requires amber { times.now.amber ≤ 30 }
    ensures { result ≡ aspect_by left cycle green times.now }
{
    if left + green > cycle {
        Aspect::Green
    } else if left + green + times.amber > cycle {
        Aspect::Amber
    } else if left <= times.red_amber {
        Aspect::RedAmber
    } else {
        Aspect::Red
    }
}

impl<'p, 'j> Player<'p, 'j> {
    ghost use Rattle.aspect_player.specs.Aspect.{aspect_at};
    ghost use Rattle.aspect_player.specs.Player.{junction_in, plan_in, second_of};

    /// Stands at second 0 of the plan.
    pub fn new(plan: &'p FittedPlan<'j>) -> Player<'p, 'j>
        ensures junction { junction_in result ≡ junction_of plan.now }
        ensures plan { plan_in result ≡ fitted_plan_of plan.now }
        ensures second { second_of result ≡ 0 }
    {
        plan.junction().rules();
        let starts = plan.plan().starts();
        let cycle = plan.plan().cycle();
        let mut left = [0u32; 16];
        for i in 0..plan.junction().groups().len() {
            left[i] = first_left(starts[i], cycle);
        }
        Player {
            plan,
            second: 0,
            left,
        }
    }

    /// The plan that is played, beside its junction.
    pub fn plan(&self) -> &'p FittedPlan<'j>
        ensures junction { junction_of result.now ≡ junction_in self.now }
        ensures plan { fitted_plan_of result.now ≡ plan_in self.now }
    {
        self.plan
    }

    /// The second at which it stands.
    pub fn second(&self) -> u64
        ensures { result ≡ second_of self.now }
    {
        self.second
    }

    /// What the group shows at this second.
    pub fn aspect(&self, group: usize) -> Aspect
        requires { group < group_count (junction_in self.now) }
        ensures { Some result ≡ option_map
            (λ found. aspect_at (plan_in self.now) group found.times (second_of self.now))
            (slice_get (junction_in self.now).groups group) }
    {
        self.plan.junction().rules();
        let plan = self.plan.plan();
        let times = self.plan.junction().groups()[group].times;
        shown(self.left[group], plan.cycle(), plan.greens()[group], &times)
    }

    /// Goes one second on.
    pub fn tick(&mut self)
        requires { second_of self.old < 2 ^ 64 - 1 }
        ensures second { second_of self.new ≡ second_of self.old + 1 }
        ensures junction { junction_in self.new ≡ junction_in self.old }
        ensures plan { plan_in self.new ≡ plan_in self.old }
    {
        self.plan.junction().rules();
        let cycle = self.plan.plan().cycle();
        let mut left = self.left;
        for i in 0..self.plan.junction().groups().len() {
            left[i] = next_left(left[i], cycle);
        }
        self.left = left;
        self.second += 1;
    }
}
