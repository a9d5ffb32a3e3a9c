//! The starts that the edges from group 0 ask for.
ghost use Rattle.difference_system.specs.System.{IsStateOf};

use crate::state::State;
use crate::system::System;
use crate::trail::Trail;

/// Each group starts when the edge from group 0 asks for it.
pub fn begin(system: &System) -> State
    ensures { IsStateOf system.now result }
{
    let mut state = State::blank();
    for group in 1..system.groups() {
        let edge = system.edge(0, group).unwrap();
        let mut trail = Trail::new();
        trail.push(edge.to);
        state.set(edge.to, edge.weight as u32, trail);
    }
    state
}
