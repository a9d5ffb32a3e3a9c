ghost use Rattle.std.specs.Prelude.{◌≡◌};
ghost use Rattle.certificate_checker.specs.Rules.{rule_number, rule_word};

use plan_model::PlanFault;

/// A rule of certificates, in the order of their numbers.
#[derive(Clone, Copy, Debug, PartialEq, Eq)]
pub enum Rule {
    /// A plan is there for a claim that speaks of one, and none for the claim that there is none.
    Plan,
    /// The plan fits the junction; else its first fault.
    Fit(PlanFault),
    /// The plan's multiplier is at least the least.
    Least,
    /// There are as many trees as the claim asks for.
    Cycles,
    /// The nodes are one whole tree: no subtree is missing, and no node stands after it.
    Tree,
    /// A Split names an item that is open in its own order.
    Pair,
    /// Unvisited nodes stand only at the end of the last tree of a stopped search, which has some.
    Unvisited,
    /// Each step of a walk of two groups or more has an edge.
    Edge,
    /// The weights of such a walk add up to more than 0; for the group of a walk of one group no green is enough.
    Sum,
    /// The Split and Closed nodes of a stopped search number its budget.
    Budget,
}

impl Rule {
    /// The rule's number, from 1.
    pub fn number(&self) -> u32
        ensures { result ≡ rule_number self.now }
    {
        match self {
            Rule::Plan => 1,
            Rule::Fit(_) => 2,
            Rule::Least => 3,
            Rule::Cycles => 4,
            Rule::Tree => 5,
            Rule::Pair => 6,
            Rule::Unvisited => 7,
            Rule::Edge => 8,
            Rule::Sum => 9,
            Rule::Budget => 10,
        }
    }

    /// The rule's word in a printed line.
    pub fn word(&self) -> &'static str
        ensures { result.now ≡ rule_word self.now }
    {
        match self {
            Rule::Plan => "plan",
            Rule::Fit(_) => "fit",
            Rule::Least => "least",
            Rule::Cycles => "cycles",
            Rule::Tree => "tree",
            Rule::Pair => "pair",
            Rule::Unvisited => "unvisited",
            Rule::Edge => "edge",
            Rule::Sum => "sum",
            Rule::Budget => "budget",
        }
    }
}
