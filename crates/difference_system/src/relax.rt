//! Edges are relaxed, pass by pass, until the starts meet every edge, or an edge closes a walk.
ghost use Rattle.std.specs.Prelude.{◌<◌, length, MatchOption, All};
ghost use Rattle.constraint_cycles.specs.Walk.{IsPositiveCycle};
ghost use Rattle.difference_system.specs.EdgeList.{edges_in, IsWhole};
ghost use Rattle.difference_system.specs.Relax.{IsInRange, IsMet, Relaxes, Steps, Passes};
ghost use Rattle.difference_system.specs.Solution.{IsClosingCircuit};
ghost use Rattle.difference_system.specs.System.{edges_of, IsStateOf};

use crate::circuit::circuit;
use crate::edge::Edge;
use crate::edge_list::EdgeList;
use crate::state::State;
use constraint_cycles::Walk;

/// What relaxing an edge did.
#[derive(Clone, Copy)]
enum Relaxed {
    /// Nothing, since the starts meet the edge.
    Met,
    /// The start of its second group rose.
    Raised,
    /// Nothing, since its second group stands on the trail of its first one.
    Closed,
}

/// What relaxing one edge, or each edge once, came to.
#[derive(Clone, Copy)]
enum Step {
    /// The starts meet the edges already.
    Met,
    /// A start rose.
    Raised,
    /// No starts meet the edges, since this walk closes.
    Closed(Walk),
}

/// Raises the start of the edge's second group where the edge asks for a later one.
fn relax(state: &mut State, edge: Edge) -> Relaxed
    requires { IsInRange state.old edge }
    ensures { Relaxes state.old edge result state.new }
{
    let reached = i64::from(state.start(edge.from)) + i64::from(edge.weight);
    if reached <= i64::from(state.start(edge.to)) {
        return Relaxed::Met;
    }
    let mut trail = *state.trail(edge.from);
    if trail.holds(edge.to) {
        return Relaxed::Closed;
    }
    trail.push(edge.to);
    state.set(edge.to, reached as u32, trail);
    Relaxed::Raised
}

/// Relaxes the edge at a place of the list.
fn relax_at(list: &EdgeList, place: usize, state: &mut State) -> Step
    requires place { place < length (edges_in list.now) }
    requires whole { IsWhole list.now }
    requires state { IsStateOf list.now.system state.old }
    ensures state { IsStateOf list.now.system state.new }
    ensures step { Steps (edges_of list.now.system) (edges_in list.now) place
        state.old result state.new }
{
    let edge = list.edges()[place];
    match relax(state, edge) {
        Relaxed::Met => Step::Met,
        Relaxed::Raised => Step::Raised,
        Relaxed::Closed => Step::Closed(circuit(state.trail(edge.from), edge.to)),
    }
}

/// Relaxes every edge of the list, up to one that closes a walk.
fn pass(list: &EdgeList, state: &mut State) -> Step
    requires whole { IsWhole list.now }
    requires state { IsStateOf list.now.system state.old }
    ensures state { IsStateOf list.now.system state.new }
    ensures pass { Passes (edges_of list.now.system) (edges_in list.now)
        state.old result state.new }
{
    let mut raised = false;
    for place in 0..list.edges().len() {
        match relax_at(list, place, state) {
            Step::Met => {}
            Step::Raised => raised = true,
            Step::Closed(walk) => return Step::Closed(walk),
        }
    }
    if raised { Step::Raised } else { Step::Met }
}

/// Makes passes until the starts meet every edge of the list; else gives a walk that closes.
pub fn settle(list: &EdgeList, state: &mut State) -> Option<Walk>
    requires whole { IsWhole list.now }
    requires state { IsStateOf list.now.system state.old }
    ensures state { IsStateOf list.now.system state.new }
    ensures met { MatchOption result (All (IsMet state.new) (edges_in list.now))
        (IsClosingCircuit (IsPositiveCycle (edges_of list.now.system))) }
{
    loop {
        match pass(list, state) {
            Step::Met => return None,
            Step::Raised => {}
            Step::Closed(walk) => return Some(walk),
        }
    }
}
