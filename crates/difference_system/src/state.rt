//! The starts of the groups, and the trails of edges that ask for them.
ghost use Rattle.std.specs.Prelude.{◌≡◌, ◌<◌};
ghost use Rattle.difference_system.specs.State.{start_of, trail_of, blank, with_start};

use crate::trail::Trail;

/// A start for each group in seconds, and the trail of edges that asks for it.
#[derive(Clone, Copy)]
pub struct State {
    starts: [u32; 16],
    trails: [Trail; 16],
}

impl State {
    /// Every group at second 0, with the trail of group 0.
    pub fn blank() -> State
        ensures { result ≡ blank }
    {
        State {
            starts: [0; 16],
            trails: [Trail::new(); 16],
        }
    }

    pub fn starts(&self) -> &[u32; 16]
        ensures { result.now ≡ self.now.starts }
    {
        &self.starts
    }

    pub fn start(&self, group: u8) -> u32
        requires { group < 16 }
        ensures { result ≡ start_of self.now group }
    {
        self.starts[usize::from(group)]
    }

    pub fn trail(&self, group: u8) -> &Trail
        requires { group < 16 }
        ensures { result.now ≡ trail_of self.now group }
    {
        let trail = &self.trails[usize::from(group)];
        trail
    }

    /// Another start for a group, with its trail.
    pub fn set(&mut self, group: u8, start: u32, trail: Trail)
        requires { group < 16 }
        ensures { self.new ≡ with_start self.old group start trail }
    {
        let place = usize::from(group);
        self.starts[place] = start;
        self.trails[place] = trail;
    }
}
