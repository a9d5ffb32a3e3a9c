ghost use Rattle.std.specs.Prelude.{List, ◌≡◌, length, take};
ghost use Rattle.constraint_cycles.specs.Edge.{AreNeeds};
ghost use Rattle.constraint_cycles.specs.StartsLaws.{AgreeOnGroups};
ghost use Rattle.constraint_cycles.specs.declared.mark.Mark.{Mark};
ghost use Rattle.junction_model.specs.Rules.{IsJunction};
ghost use Rattle.least_greens.specs.ForTarget.{needs_of};
ghost use Rattle.least_greens.specs.Targets.{IsNotAbove};
ghost use Rattle.plan_model.specs.Fits.{group_count};
ghost use Rattle.plan_model.specs.FittedPlan.{junction_of, fitted_plan_of};
ghost use Rattle.plan_model.specs.Plan.{plan_of};
ghost use Rattle.plan_model.specs.SignalPlan.{plan_with};
ghost use Rattle.cycle_orders.specs.Search.{IsSearchable, IsPlanFor};
ghost use Rattle.cycle_orders.specs.Standing.{AreStartsOfFullOrder};

use crate::answer::Mode;
use crate::needs::needs;
use conflict_matrix::pair_laws;
use constraint_cycles::{agreeing_law, root_law};
use least_greens::{NeedClosure, NeedRule, need_law, needs_law, plan_need_law};
use plan_model::{FittedPlan, Plan, full_order_fits_law};
use sig_base::Target;
use std::marker::Model;

/// What is searched for: the target of a rule's lanes at a cycle, in seconds.
#[derive(Drop)]
pub struct Search<'j, F: Fn(Target, u32, usize) -> u32 + NeedClosure + Drop> {
    pub rule: NeedRule<'j, F>,
    pub target: Target,
    pub cycle: u32,
    pub mode: Mode,
}

impl<'j, F: Fn(Target, u32, usize) -> u32 + NeedClosure + Drop> Model for Search<'j, F> {
    ghost use Rattle.least_greens.specs.NeedRule.{rule_junction, rule_lanes};
    ghost use Rattle.cycle_orders.specs.Search.{SearchView, search_of, IsSearchable};

    ghost Value = { SearchView };

    ghost view = { λ s.
        search_of (rule_junction s.rule) (rule_lanes s.rule) s.target s.cycle s.mode };

    ghost invariant = { λ s. IsSearchable
        (search_of (rule_junction s.rule) (rule_lanes s.rule) s.target s.cycle s.mode) };
}

impl<'j, F: Fn(Target, u32, usize) -> u32 + NeedClosure + Drop> Search<'j, F> {
    /// What each search keeps. This method does nothing: a caller that rests on it calls it.
    pub fn rules(&self)
        ensures junction { IsJunction self.now.junction }
        ensures searchable { IsSearchable self.now }
    {
        self.rule.junction().rules();
    }

    pub fn mode(&self) -> Mode
        ensures { result ≡ self.now.mode }
    {
        self.mode
    }

    /// The need of each group for a target, and 1 past the last group.
    pub fn needs(&self, target: Target) -> [u32; 16]
        ensures value { AgreeOnGroups self.now.junction.conflicts result
            (needs_of self.now.junction self.now.lanes target self.now.cycle) }
        ensures range { AreNeeds self.now.junction.conflicts result }
        ensures long { length result ≡ 16 }
    {
        self.rule.junction().rules();
        needs(&self.rule, target, self.cycle)
    }

    /// The plan of these starts, with the needs as greens.
    fn shown_plan(&self, target: Target, starts: &[u32; 16]) -> Plan
        ensures { plan_of result ≡ plan_with self.now.cycle
            (take (group_count self.now.junction) starts.now)
            (needs_of self.now.junction self.now.lanes target self.now.cycle) }
    {
        needs_law();
        self.rule.junction().rules();
        let groups = self.rule.junction().groups().len();
        let needs = self.needs(target);
        match Plan::new(self.cycle, &starts[..groups], &needs[..groups]) {
            Some(plan) => plan,
            None => unreachable!(),
        }
    }

    /// The plan of a full order's least starts, with the needs as greens.
    pub fn plan_of(&self, target: Target, starts: &[u32; 16]) -> FittedPlan<'j>
        requires risen { IsNotAbove self.now.target target }
        requires starts { (marks : List Mark) ×
            AreStartsOfFullOrder self.now target marks starts.now }
        ensures junction { junction_of result ≡ self.now.junction }
        ensures plan { (marks : List Mark) → AreStartsOfFullOrder self.now target marks starts.now →
            IsPlanFor self.now target marks (fitted_plan_of result) }
    {
        pair_laws();
        root_law();
        agreeing_law();
        need_law();
        needs_law();
        plan_need_law();
        full_order_fits_law();
        let junction = self.rule.junction();
        junction.rules();
        let plan = self.shown_plan(target, starts);
        match FittedPlan::new(junction, plan) {
            Ok(fitted) => fitted,
            Err(_) => unreachable!(),
        }
    }
}
