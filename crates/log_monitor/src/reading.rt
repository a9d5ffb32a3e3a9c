ghost use Rattle.std.specs.Prelude.{ℕ, ◌≡◌, ◌≢◌, ◌+◌, ◌<◌, ◌≤◌, ◌-◌, ◌^◌, ◌==◌};
ghost use Rattle.std.specs.Prelude.{if◌then◌else◌, List, [], None, Some, length};
ghost use Rattle.std.specs.Prelude.{IfErr, IfSome, OnOk, MatchOption};
ghost use Rattle.std.specs.Fmt.{decimal};
ghost use Rattle.csv.specs.Records.{fields_of, field_at};
ghost use Rattle.plan_model.specs.Fits.{group_count};
ghost use Rattle.log_monitor.specs.Log.{most_second, HasFields, IsNextSecond, IsFaultAfter};
ghost use Rattle.log_monitor.specs.Monitor.{memory_of};
ghost use Rattle.log_monitor.specs.Reading.{junction_read, HasRead, IsRead, Sees, Takes};
ghost use Rattle.log_monitor.specs.Reading.{IsTold, in_range};
ghost use Rattle.log_monitor.specs.Violations.{in_seconds};

use crate::fault::LogFault;
use crate::monitor::Monitor;
use crate::record::{is_decimal, row_in, second_in};
use crate::verdict::LogVerdict;
use crate::violation::Violation;
use aspect_player::Aspect;
use csv::ByteRecord;
use junction_model::Junction;

/// A log, as far as it was read.
#[derive(Drop)]
pub struct Reading<'j> {
    pub monitor: Monitor<'j>,
    /// The first violation, by the numbers of the rows.
    pub found: Option<Violation>,
    /// The second of the first row.
    pub first: u64,
    pub rows: u32,
}

/// The second of the first row, after one more row.
fn first_second(rows: u32, second: u64, first: u64) -> u64
    ensures { result ≡ (if rows == 0 then second else first) }
{
    if rows == 0 { second } else { first }
}

/// The same violation, where row 0 has this second.
fn with_seconds(first: u64, found: Violation) -> Violation
    requires first { first ≤ most_second }
    requires small { in_range found }
    ensures { result ≡ in_seconds first found }
{
    match found {
        Violation::Clearance(i, j, u, v) => Violation::Clearance(i, j, first + u, first + v),
        Violation::Amber(i, v) => Violation::Amber(i, first + v),
        Violation::Minimum(i, v) => Violation::Minimum(i, first + v),
    }
}

impl<'j> Reading<'j> {
    pub fn new(junction: &'j Junction) -> Reading<'j>
        ensures junction { junction_read result ≡ junction.now }
        ensures read { HasRead result [] }
    {
        Reading {
            monitor: Monitor::new(junction),
            found: None,
            first: 0,
            rows: 0,
        }
    }

    /// The second of the next record, whose field for it this is.
    fn second(&self, field: &[u8]) -> Option<u64>
        requires first { self.now.first ≤ most_second }
        ensures { MatchOption result
            ((n : ℕ) → IsNextSecond self.now.first self.now.rows n → field.now ≢ decimal n)
            (λ n. IsNextSecond self.now.first self.now.rows n × (field.now ≡ decimal n)) }
    {
        if self.rows == 0 {
            return match second_in(field) {
                Some(second) => Some(u64::from(second)),
                None => None,
            };
        }
        let next = self.first + u64::from(self.rows);
        if is_decimal(field, next) {
            Some(next)
        } else {
            None
        }
    }

    /// Sees a row, unless a violation was found before.
    fn see(&mut self, row: &[Aspect])
        requires groups { length row.now ≡ group_count (junction_read self.old) }
        requires room { self.old.found ≡ None → (memory_of self.old.monitor).rows < 2 ^ 32 }
        ensures sees { Sees self.old self.new row.now }
        ensures first { self.new.first ≡ self.old.first }
        ensures rows { self.new.rows ≡ self.old.rows }
    {
        if self.found.is_none() {
            self.found = self.monitor.see(row);
        }
    }

    /// Takes the next record, which has a field for the second and one for each group.
    pub fn take(&mut self, read: &ByteRecord) -> Result<(), LogFault>
        requires read { IsRead self.old }
        requires fields { HasFields (junction_read self.old) (fields_of read.now) }
        requires few { self.old.rows < 2 ^ 32 - 1 }
        ensures taken { OnOk result (Takes self.old self.new (fields_of read.now)) }
        ensures fault { IfErr result (λ found. IsFaultAfter (junction_read self.old) self.old.first
            self.old.rows (fields_of read.now) found) }
    {
        let number = self.rows + 1;
        self.monitor.junction().rules();
        let groups = self.monitor.junction().groups().len();
        let Some(field) = read.get(0) else {
            unreachable!();
        };
        let Some(second) = self.second(field) else {
            return Err(LogFault::Second(number));
        };
        let Some(row) = row_in(read, groups) else {
            return Err(LogFault::Aspect(number));
        };
        self.see(&row[..groups]);
        self.first = first_second(self.rows, second, self.first);
        self.rows = number;
        Ok(())
    }

    /// What the log shows, where this was all of it.
    pub fn verdict(&self) -> LogVerdict
        requires read { IsRead self.now }
        ensures { IsTold self.now result }
    {
        match self.found {
            None => LogVerdict::Safe(u64::from(self.rows)),
            Some(found) => LogVerdict::Unsafe(with_seconds(self.first, found)),
        }
    }
}
