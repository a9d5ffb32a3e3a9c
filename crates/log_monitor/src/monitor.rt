ghost use Rattle.std.specs.Prelude.{◌≡◌, ◌<◌, ◌^◌, [], None, length, IsNone, IsSome};
ghost use Rattle.plan_model.specs.Fits.{group_count};
ghost use Rattle.log_monitor.specs.Memory.{IsMemoryOf, group_after, with_row};
ghost use Rattle.log_monitor.specs.Monitor.{watched, memory_of};
ghost use Rattle.log_monitor.specs.Sight.{IsSeen};

use crate::memory::GroupMemory;
use crate::sight::Sight;
use crate::violation::Violation;
use aspect_player::Aspect;
use junction_model::Junction;

/// Watches rows as they come. It keeps no rows, only what the next one is judged by.
#[derive(Drop)]
pub struct Monitor<'j> {
    junction: &'j Junction,
    rows: u64,
    groups: [GroupMemory; 16],
}

/// What is remembered of a group after this row shows this aspect of it.
fn group_after(row: u32, aspect: Aspect, own: GroupMemory) -> GroupMemory
    ensures { result ≡ group_after row aspect own }
{
    match aspect {
        Aspect::Green => GroupMemory {
            last: Some(row),
            since: match own.since {
                Some(since) => Some(since),
                None => Some(row),
            },
        },
        Aspect::Red => ended(own),
        Aspect::RedAmber => ended(own),
        Aspect::Amber => ended(own),
    }
}

fn ended(own: GroupMemory) -> GroupMemory
    ensures { result ≡ record { last = own.last; since = None } }
{
    GroupMemory {
        last: own.last,
        since: None,
    }
}

impl<'j> Monitor<'j> {
    /// Has seen no row.
    pub fn new(junction: &'j Junction) -> Monitor<'j>
        ensures junction { watched result ≡ junction.now }
        ensures memory { IsMemoryOf junction.now [] (memory_of result) }
    {
        junction.rules();
        Monitor {
            junction,
            rows: 0,
            groups: [GroupMemory {
                last: None,
                since: None,
            }; 16],
        }
    }

    /// The junction whose rows it watches.
    pub(crate) fn junction(&self) -> &'j Junction
        ensures { result.now ≡ watched self.now }
    {
        self.junction
    }

    /// The next row: its first violation, or none, and then the row is remembered. After a
    /// violation the monitor is as before.
    pub fn see(&mut self, row: &[Aspect]) -> Option<Violation>
        requires groups { length row.now ≡ group_count (watched self.old) }
        requires room { (memory_of self.old).rows < 2 ^ 32 }
        ensures next { IsSeen (watched self.old) (memory_of self.old) row.now result }
        ensures added { IsNone result → memory_of self.new ≡ with_row (memory_of self.old) row.now }
        ensures kept { IsSome result → memory_of self.new ≡ memory_of self.old }
        ensures junction { watched self.new ≡ watched self.old }
    {
        self.junction.rules();
        let number = self.rows as u32;
        let sight = Sight {
            junction: self.junction,
            rows: number,
            groups: &self.groups[..row.len()],
            row,
        };
        let found = sight.first_violation();
        if found.is_none() {
            self.remember(number, row);
        }
        found
    }

    fn remember(&mut self, number: u32, row: &[Aspect])
        requires groups { length row.now ≡ group_count (watched self.old) }
        requires number { number ≡ (memory_of self.old).rows }
        ensures memory { memory_of self.new ≡ with_row (memory_of self.old) row.now }
        ensures junction { watched self.new ≡ watched self.old }
    {
        self.junction.rules();
        let mut groups = self.groups;
        for i in 0..row.len() {
            groups[i] = group_after(number, row[i], groups[i]);
        }
        self.groups = groups;
        self.rows += 1;
    }
}
