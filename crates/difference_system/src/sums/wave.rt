//! The search for a way along tight edges, breadth first (Moore 1959): from the end backwards, the nearest groups first.

ghost use Rattle.std.specs.Prelude.{◌<◌};

use crate::ways::Ways;
use sig_base::MOST_GROUPS;

/// What stands for no group.
const NONE: u8 = 16;

/// The groups from which a way along tight edges leads to the end, in the order in which they are found.
#[derive(Clone, Copy)]
pub struct Wave {
    found: [u8; 16],
    count: usize,
    /// The groups that were found, as bits.
    passed: u16,
    /// For each group that was found the next one on its way.
    pub next: [u8; 16],
}

impl Wave {
    /// The wave from the end to the group that the way begins with; `reach` is the sum from there to each group.
    pub fn of(ways: &Ways, reach: &[i16; 16], begin: usize, end: usize) -> Wave {
        let mut wave = Wave {
            found: [0; 16],
            count: 0,
            passed: 0,
            next: [NONE; 16],
        };
        wave.put(end % MOST_GROUPS, NONE);
        for place in 0..MOST_GROUPS {
            if place >= wave.count || wave.next[begin % MOST_GROUPS] != NONE {
                return wave;
            }
            let group = wave.found[place];
            let tight = ways.tight(usize::from(group), reach) & !wave.passed;
            wave.spread(tight, group);
        }
        wave
    }

    /// All of these groups, whose next one this is.
    fn spread(&mut self, groups: u16, next: u8) {
        let mut left = groups;
        for _group in 0..MOST_GROUPS {
            if left == 0 {
                return;
            }
            self.put(left.trailing_zeros() as usize % MOST_GROUPS, next);
            left &= left - 1;
        }
    }

    /// One more group, whose next one this is.
    fn put(&mut self, group: usize, next: u8)
        requires { group < 16 }
    {
        if self.count < MOST_GROUPS {
            self.found[self.count] = group as u8;
            self.count += 1;
        }
        self.passed |= 1 << group;
        self.next[group] = next;
    }
}
