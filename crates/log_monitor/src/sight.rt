ghost use Rattle.std.specs.Prelude.{◌≡◌, ◌<◌, ◌+◌, ◌↔◌, IsTrue, IfSome, MatchOption};
ghost use Rattle.sig_base.specs.First.{FirstOrNone};
ghost use Rattle.plan_model.specs.Fits.{group_count};
ghost use Rattle.log_monitor.specs.Memory.{latest_of};
ghost use Rattle.log_monitor.specs.Sight.{junction_in, memory_in, row_in, IsWhole};
ghost use Rattle.log_monitor.specs.Sight.{IsPairJudged, IsFirstTo, IsFirstClearance};
ghost use Rattle.log_monitor.specs.Sight.{BreaksAmberOf, BreaksMinimumOf, OwesAmber, EndsShort, IsSeen};

use crate::memory::GroupMemory;
use crate::violation::Violation;
use aspect_player::Aspect;
use junction_model::Junction;

/// A row before what is remembered of the rows that came before it.
#[derive(Clone, Copy)]
pub struct Sight<'a> {
    pub junction: &'a Junction,
    /// The number of the row.
    pub rows: u32,
    pub groups: &'a [GroupMemory],
    pub row: &'a [Aspect],
}

fn is_green(aspect: Aspect) -> bool
    ensures { IsTrue result ↔ (aspect ≡ Aspect.Green) }
{
    matches!(aspect, Aspect::Green)
}

/// The row so many seconds after another.
fn after(row: u32, seconds: u32) -> u64
    ensures { result ≡ row + seconds }
{
    u64::from(row) + u64::from(seconds)
}

/// Whether a row owes amber after the group's last green, and shows another aspect.
fn owes_amber(last: Option<u32>, row: u32, amber: u32, shown: Aspect) -> bool
    ensures { IsTrue result ↔ OwesAmber last row amber shown }
{
    let Some(last) = last else {
        return false;
    };
    if u64::from(row) > after(last, amber) {
        return false;
    }
    match shown {
        Aspect::Red => true,
        Aspect::RedAmber => true,
        Aspect::Green => after(last, 1) != u64::from(row),
        Aspect::Amber => false,
    }
}

/// Whether a run of green since a row ends with this one, and was too short.
fn ends_short(since: Option<u32>, row: u32, min_green: u32, shown: Aspect) -> bool
    ensures { IsTrue result ↔ EndsShort since row min_green shown }
{
    let Some(since) = since else {
        return false;
    };
    if is_green(shown) {
        return false;
    }
    if since == 0 {
        return false;
    }
    u64::from(row) < after(since, min_green)
}

impl<'a> Sight<'a> {
    /// The last row that shows the group green.
    fn latest(&self, i: usize) -> Option<u32>
        requires whole { IsWhole self.now }
        requires i { i < group_count (junction_in self.now) }
        ensures { result ≡ latest_of (memory_in self.now) (row_in self.now) i }
    {
        match self.row[i] {
            Aspect::Green => Some(self.rows),
            Aspect::Red => self.groups[i].last,
            Aspect::RedAmber => self.groups[i].last,
            Aspect::Amber => self.groups[i].last,
        }
    }

    /// The row of a green of `i` after which `j` is green too early, if it is.
    fn clearance(&self, i: usize, j: usize) -> Option<u32>
        requires whole { IsWhole self.now }
        requires i { i < group_count (junction_in self.now) }
        requires j { j < group_count (junction_in self.now) }
        ensures { IsPairJudged self.now i j result }
    {
        self.junction.rules();
        let Some(intergreen) = self.junction.conflicts().intergreen(i, j) else {
            return None;
        };
        if !is_green(self.row[j]) {
            return None;
        }
        let Some(last) = self.latest(i) else {
            return None;
        };
        if u64::from(self.rows) <= after(last, intergreen) {
            Some(last)
        } else {
            None
        }
    }

    /// The first group that is green too early after `i`, and the row of that green of `i`.
    fn first_after(&self, i: usize) -> Option<(usize, u32)>
        requires whole { IsWhole self.now }
        requires i { i < group_count (junction_in self.now) }
        ensures { IsFirstTo self.now i result }
    {
        for j in 0..self.row.len() {
            if let Some(last) = self.clearance(i, j) {
                return Some((j, last));
            }
        }
        None
    }

    fn first_clearance(&self) -> Option<Violation>
        requires whole { IsWhole self.now }
        ensures { IsFirstClearance self.now result }
    {
        self.junction.rules();
        for i in 0..self.row.len() {
            if let Some((j, last)) = self.first_after(i) {
                return Some(Violation::Clearance(
                    i as u32,
                    j as u32,
                    u64::from(last),
                    u64::from(self.rows),
                ));
            }
        }
        None
    }

    /// Whether the group doesn't show the amber that it owes.
    fn lacks_amber(&self, i: usize) -> bool
        requires whole { IsWhole self.now }
        requires i { i < group_count (junction_in self.now) }
        ensures { IsTrue result ↔ BreaksAmberOf self.now i }
    {
        let group = self.junction.groups()[i];
        let own = self.groups[i];
        owes_amber(own.last, self.rows, group.times.amber, self.row[i])
    }

    /// Whether the group's green ends and was too short.
    fn ends_early(&self, i: usize) -> bool
        requires whole { IsWhole self.now }
        requires i { i < group_count (junction_in self.now) }
        ensures { IsTrue result ↔ BreaksMinimumOf self.now i }
    {
        let group = self.junction.groups()[i];
        let own = self.groups[i];
        ends_short(own.since, self.rows, group.times.min_green, self.row[i])
    }

    fn first_amber(&self) -> Option<usize>
        requires whole { IsWhole self.now }
        ensures { FirstOrNone (BreaksAmberOf self.now) (group_count (junction_in self.now)) result }
    {
        for i in 0..self.row.len() {
            if self.lacks_amber(i) {
                return Some(i);
            }
        }
        None
    }

    fn first_minimum(&self) -> Option<usize>
        requires whole { IsWhole self.now }
        ensures { FirstOrNone (BreaksMinimumOf self.now)
            (group_count (junction_in self.now)) result }
    {
        for i in 0..self.row.len() {
            if self.ends_early(i) {
                return Some(i);
            }
        }
        None
    }

    /// The first violation of the row, clearances before ambers and ambers before minimum greens.
    pub fn first_violation(&self) -> Option<Violation>
        requires whole { IsWhole self.now }
        ensures { IsSeen (junction_in self.now) (memory_in self.now) (row_in self.now) result }
    {
        self.junction.rules();
        if let Some(found) = self.first_clearance() {
            return Some(found);
        }
        if let Some(i) = self.first_amber() {
            return Some(Violation::Amber(i as u32, u64::from(self.rows)));
        }
        if let Some(i) = self.first_minimum() {
            return Some(Violation::Minimum(i as u32, u64::from(self.rows)));
        }
        None
    }
}
