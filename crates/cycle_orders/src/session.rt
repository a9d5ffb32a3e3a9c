//! A search at one cycle that can be cut into several calls.
//!
//! The orders are taken in preorder. One that a walk closes for the running target is a leaf of the tree; one that starts
//! meet is split at its due item, or, where it decides each item, gives a plan with the needs as greens. In mode `First`
//! that ends the search; in mode `Best` the running target becomes to beat the plan, and is raised until a walk closes the
//! order. A walk goes on to close its order when the target rises, so in the end all leaves close for the running target,
//! and no plan of the cycle meets that. Each node decides one more item on a branch, and a target can rise only as often
//! as some need can, so the search ends.
ghost use Rattle.std.specs.Prelude.{ℕ, ◌≡◌, ◌+◌, ◌-◌, ◌<◌, ◌≤◌, ◌↔◌, length, take, IfOk, OnOk, OnErr, IsTrue};
ghost use Rattle.least_greens.specs.NeedRule.{rule_junction, rule_lanes};
ghost use Rattle.cycle_orders.specs.Answer.{IsSearchAnswer};
ghost use Rattle.cycle_orders.specs.Search.{search_of, IsSearchable};
ghost use Rattle.cycle_orders.specs.Session.{session_begun, HasUnvisited, KeepsVisited, IsAdvance, IsStoppedAnswer, IsOfSession, IsWithin};

use crate::answer::{CycleAnswer, Mode, Progress};
use crate::place::Place;
use crate::question::Search;
use crate::raising::raise_until_closed;
use crate::visit::{Visited, close, visit};
use constraint_cycles::{Node, Tree, agreeing_law, exclusion_law, growth_law};
use least_greens::{
    NeedClosure, NeedRule, closed_cycle_law, passed_plan_law, rising_law, target_law,
};
use plan_model::FittedPlan;
use sig_base::{NoMemory, Target};
use std::alloc::Global;
use std::marker::Model;

/// A search at one cycle that can be cut into several calls.
#[derive(Drop)]
pub struct Session<'j, F: Fn(Target, u32, usize) -> u32 + NeedClosure + Drop> {
    search: Search<'j, F>,
    target: Target,
    place: Place,
    tree: Tree,
    count: usize,
    plan: Option<FittedPlan<'j>>,
}

impl<'j, F: Fn(Target, u32, usize) -> u32 + NeedClosure + Drop> Model for Session<'j, F> {
    ghost use Rattle.cycle_orders.specs.Answer.{plan_in};
    ghost use Rattle.cycle_orders.specs.Session.{SessionView};
    ghost use Rattle.cycle_orders.specs.Standing.{IsStanding};

    ghost Value = { SessionView };

    ghost view = { λ s. record {
      search = s.search;
      tree = s.tree;
      plan = plan_in s.plan;
      visited = s.count;
    } };

    ghost invariant = { λ s. IsStanding s.search s.target s.place s.tree s.count s.plan };
}

/// Takes the nodes behind so many away.
fn keep_visited(tree: &mut Tree, count: usize)
    requires { count ≤ length tree.old }
    ensures { tree.new ≡ take count tree.old }
{
    while tree.items().len() > count {
        tree.pop();
    }
}

impl<'j, F: Fn(Target, u32, usize) -> u32 + NeedClosure + Drop> Session<'j, F> {
    /// Before the first visit: the tree is one unvisited node. The cycle is in seconds.
    pub fn new(
        alloc: Global,
        rule: NeedRule<'j, F>,
        target: Target,
        cycle: u32,
        mode: Mode,
    ) -> Result<Session<'j, F>, NoMemory>
        requires { IsSearchable
            (search_of (rule_junction rule) (rule_lanes rule) target cycle mode) }
        ensures { IfOk result (λ s. s ≡ session_begun
            (search_of (rule_junction rule.entry) (rule_lanes rule.entry) target cycle mode)) }
    {
        target_law();
        let search = Search {
            rule,
            target,
            cycle,
            mode,
        };
        let junction = search.rule.junction();
        junction.rules();
        let place = Place::new(alloc, junction.conflicts(), &search.needs(target), cycle)?;
        let mut tree = Tree::new(alloc);
        tree.push(Node::Unvisited)?;
        Ok(Session {
            search,
            target,
            place,
            tree,
            count: 0,
            plan: None,
        })
    }

    /// How many nodes were visited.
    pub fn visited(&self) -> u64
        ensures { result ≡ self.now.visited }
    {
        self.count as u64
    }

    fn has_unvisited(&self) -> bool
        ensures { IsTrue result ↔ HasUnvisited self.now }
    {
        self.count < self.tree.items().len()
    }

    /// Visits the order at hand.
    fn step(&mut self) -> Result<(), NoMemory>
        requires { HasUnvisited self.old }
        ensures search { self.new.search ≡ self.old.search }
        ensures ok { OnOk result (self.new.visited ≡ self.old.visited + 1) }
        ensures past { OnOk result (KeepsVisited self.old self.new) }
        ensures err { OnErr result (self.new ≡ self.old) }
    {
        rising_law();
        passed_plan_law();
        target_law();
        growth_law();
        agreeing_law();
        exclusion_law();
        self.search.rules();
        let count = self.count;
        prove!(count < self.tree.items().len());
        let visited = visit(&mut self.place, &mut self.tree, count)?;
        self.count = count + 1;
        let Visited::Full(starts) = visited else {
            return Ok(());
        };
        match self.search.mode() {
            Mode::First => {
                self.plan = Some(self.search.plan_of(self.target, &starts));
                keep_visited(&mut self.tree, count);
                return Ok(());
            }
            Mode::Best => {}
        }
        let raised = raise_until_closed(&self.search, self.target, &mut self.place, &starts);
        close(&mut self.place, &mut self.tree, count, raised.walk);
        self.target = raised.target;
        self.plan = Some(raised.plan);
        Ok(())
    }

    /// Visits up to so many nodes; those that were visited before stay as they are. After want of memory it may be called
    /// again, and goes on where it stands.
    pub fn advance(&mut self, nodes: u64) -> Result<Progress, NoMemory>
        ensures { IsAdvance nodes self.old self.new result }
    {
        for _node in 0..nodes {
            if !self.has_unvisited() {
                return Ok(Progress::Ended);
            }
            self.step()?;
        }
        if self.has_unvisited() {
            Ok(Progress::Going)
        } else {
            Ok(Progress::Ended)
        }
    }

    /// The answer of a search with a budget of as many nodes as all advances were to visit.
    pub fn finish(self) -> CycleAnswer<'j>
        ensures stopped { IsStoppedAnswer result ↔ HasUnvisited self.entry }
        ensures same { IsOfSession self.entry result }
        ensures answer { (n : ℕ) → IsWithin n self.entry →
            IsSearchAnswer self.entry.search n (n - self.entry.visited) result }
    {
        closed_cycle_law();
        self.search.rules();
        let left = self.has_unvisited();
        let mode = self.search.mode();
        let plan = self.plan;
        if left {
            return CycleAnswer::Stopped(self.tree, plan);
        }
        match mode {
            Mode::First => match plan {
                Some(plan) => CycleAnswer::Found(plan),
                None => CycleAnswer::Closed(self.tree, None),
            },
            Mode::Best => CycleAnswer::Closed(self.tree, plan),
        }
    }
}
