ghost use Rattle.std.specs.Prelude.{◌≡◌, ◌<◌};
ghost use Rattle.sig_base.specs.Times.{IsCycle};
ghost use Rattle.plan_model.specs.Fits.{group_count};
ghost use Rattle.least_greens.specs.NeedOf.{need_of};
ghost use Rattle.least_greens.specs.NeedClosure.{Answers, Answers-prop};

use junction_model::Junction;
use sig_base::{LaneSet, Target};

/// What a closure that answers needs may be asked, and what it gives. Every closure
/// `Fn(Target, u32, usize) -> u32` is one.
pub trait NeedClosure {
    ghost use Rattle.std.specs.Prelude.{ℕ};
    ghost use Rattle.sig_base.specs.declared.target.Target.{Target};

    ghost accepts: { Self → Target → ℕ → ℕ → Type 0 };

    ghost gives: { Self → Target → ℕ → ℕ → ℕ → Type 0 };

    fn call_need(&self, target: Target, cycle: u32, group: usize) -> u32
        requires { accepts self.now target cycle group }
        ensures { gives self.now target cycle group result };
}

impl<F: Fn(Target, u32, usize) -> u32> NeedClosure for F {
    ghost accepts = { λ f t c g. F.pre f t c g };

    ghost gives = { λ f t c g r. F.post f t c g r };

    fn call_need(&self, target: Target, cycle: u32, group: usize) -> u32 {
        self(target, cycle, group)
    }
}

/// A junction and a set of its lanes, beside a closure that answers each group's need for them.
#[derive(Drop)]
pub struct NeedRule<'j, F: Fn(Target, u32, usize) -> u32 + NeedClosure> {
    junction: &'j Junction,
    lanes: LaneSet,
    closure: F,
    pub ghost answers: { Answers F.accepts F.gives junction.now lanes closure } by { Answers-prop F.accepts F.gives junction.now lanes closure },
}

impl<'j, F: Fn(Target, u32, usize) -> u32 + NeedClosure> NeedRule<'j, F> {
    ghost use Rattle.least_greens.specs.NeedRule.{rule_junction, rule_lanes, rule_closure};

    /// A rule over a closure that may be asked every group's need at any cycle, and answers it.
    pub fn new(junction: &'j Junction, lanes: LaneSet, closure: F) -> NeedRule<'j, F>
        requires { Answers F.accepts F.gives junction.now lanes closure }
        ensures junction { rule_junction result ≡ junction.now }
        ensures lanes { rule_lanes result ≡ lanes }
        ensures closure { rule_closure result ≡ closure }
    {
        NeedRule {
            junction,
            lanes,
            closure,
        }
    }

    /// The need of the group at the cycle, in seconds: 301 where no green that the group may have is enough.
    pub fn ask(&self, target: Target, cycle: u32, group: usize) -> u32
        requires cycle { IsCycle cycle }
        requires group { group < group_count (rule_junction self.now) }
        ensures need { result ≡
            need_of (rule_junction self.now) (rule_lanes self.now) target cycle group }
        ensures given { F.gives (rule_closure self.now) target cycle group result }
    {
        self.closure.call_need(target, cycle, group)
    }

    /// The junction that the rule speaks of.
    pub fn junction(&self) -> &'j Junction
        ensures { result.now ≡ rule_junction self.now }
    {
        self.junction
    }

    /// The lanes that it asks of.
    pub fn lanes(&self) -> LaneSet
        ensures { result ≡ rule_lanes self.now }
    {
        self.lanes
    }
}
