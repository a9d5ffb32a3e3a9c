ghost use Rattle.std.specs.Prelude.{◌≡◌, ◌↔◌, Some, IsTrue, IsErrOf, OnOk, OnErr, IfOk, length, ◌≤◌, None, Err};
ghost use Rattle.std.specs.Option.{option_map};
ghost use Rattle.sig_base.specs.Answers.{refusals_after};
ghost use Rattle.sig_base.specs.MemoryShelf.{empty_shelf, fails_next, is_failing, with_bytes, with_failing};
ghost use Rattle.sig_base.specs.CallNumber.{next_number};
ghost use Rattle.sig_base.specs.FaultCount.{counted_if, counted_on};
ghost use Rattle.sig_base.specs.Shelf.{held, with_held, Exceeds, FetchCause, PutCause};
ghost use Rattle.sig_base.specs.declared.shelf.ShelfFault.TheVariants.{Failed, TooLong};

use crate::call_number::take_number;
use crate::no_memory::NoMemory;
use crate::shelf::{Shelf, ShelfFault};
use crate::write_log::{WriteLog, find, write};
use std::alloc::Global;
use std::collections::VecDeque;
use std::marker::Model;

/// A shelf in memory, which tells what it holds. It fails at the calls that `fail_at` names. One that
/// answers `Memory` has used up its number: it is counted, and nothing else changes.
#[derive(Drop)]
pub struct MemoryShelf {
    alloc: Global,
    log: WriteLog,
    calls: u64,
    failing: Vec<u64>,
    faults: u64,
    refusals: u64,
}

impl Model for MemoryShelf {
    ghost use Rattle.sig_base.specs.MemoryShelf.{MemoryShelfState, state_code};
    ghost use Rattle.sig_base.specs.WriteLog.{replayed};

    ghost Value = { MemoryShelfState };

    ghost coded = { state_code };

    ghost view = { λ s. record { holds = replayed s.log.items; calls = s.calls; failing = s.failing.items; faults = s.faults; refusals = s.refusals } };
}

impl MemoryShelf {
    /// A shelf that holds nothing and has no fault. What it holds is allocated by `alloc`.
    pub fn new(alloc: Global) -> MemoryShelf
        ensures { result ≡ empty_shelf }
    {
        MemoryShelf {
            alloc,
            log: VecDeque::new(alloc),
            calls: 0,
            failing: Vec::new(alloc),
            faults: 0,
            refusals: 0,
        }
    }

    /// Makes the name hold the bytes. This is no call of the shelf: it has no number and doesn't fail.
    pub fn set(&mut self, name: &str, bytes: &[u8]) -> Result<(), NoMemory>
        ensures ok { OnOk result (self.new ≡ with_bytes self.old name.now bytes.now) }
        ensures err { OnErr result (self.new ≡ self.old) }
    {
        write(self.alloc, &mut self.log, name, bytes)
    }

    /// Lets the call of that number fail. Calls of `fetch` and `put` are numbered together, from 1 to
    /// 18446744073709551615; a later call has no number and doesn't fail.
    pub fn fail_at(&mut self, call: u64) -> Result<(), NoMemory>
        ensures ok { OnOk result (self.new ≡ with_failing self.old call) }
        ensures err { OnErr result (self.new ≡ self.old) }
    {
        self.failing.push(call)?;
        Ok(())
    }

    /// The bytes of a name; `None` where it isn't held.
    pub fn held(&self, name: &str) -> Option<&[u8]>
        ensures { option_map (λ bytes. bytes.now) result ≡ held self.now.holds name.now }
    {
        match find(&self.log, name) {
            Some(bytes) => Some(bytes.as_slice()),
            None => None,
        }
    }
}

impl Shelf for MemoryShelf {
    ghost holds = { λ s. Some s.holds };

    ghost faults = { λ s. s.faults };

    ghost refusals = { λ s. s.refusals };

    fn fetch(&mut self, alloc: Global, name: &str, limit: u32) -> Result<Vec<u8>, ShelfFault>
        ensures same { self.new.holds ≡ self.old.holds }
        ensures short { IfOk result (λ v. length v.items ≤ limit) }
        ensures bytes { IfOk result (λ v. held self.old.holds name.now ≡ Some v.items) }
        ensures cause { FetchCause (Some self.old.holds) name.now limit
            self.old.faults self.new.faults self.old.refusals self.new.refusals result }
        ensures calls { self.new.calls ≡ counted_on self.old.calls }
        ensures failing { self.new.failing ≡ self.old.failing }
        ensures faults { self.new.faults ≡ counted_if (fails_next self.old) self.old.faults }
        ensures refusals { self.new.refusals ≡ refusals_after result self.old.refusals }
        ensures fails { IsTrue (fails_next self.old) → result ≡ Err Failed }
        ensures absent { ¬ IsTrue (fails_next self.old) →
            IsErrOf result Failed ↔ (held self.old.holds name.now ≡ None) }
        ensures too_long { ¬ IsTrue (fails_next self.old) →
            IsErrOf result TooLong ↔ Exceeds (Some self.old.holds) name.now limit }
    {
        if is_next_failing(&mut self.calls, &self.failing, &mut self.faults) {
            return Err(ShelfFault::Failed);
        }
        let Some(bytes) = find(&self.log, name) else {
            return Err(ShelfFault::Failed);
        };
        if bytes.len() > limit as usize {
            self.refusals = self.refusals.saturating_add(1);
            return Err(ShelfFault::TooLong);
        }
        Ok(bytes.to_vec(alloc)?)
    }

    fn put(&mut self, name: &str, bytes: &[u8]) -> Result<(), ShelfFault>
        ensures ok { OnOk result (self.new.holds ≡ with_held self.old.holds name.now bytes.now) }
        ensures err { OnErr result (self.new.holds ≡ self.old.holds) }
        ensures refusals { self.new.refusals ≡ self.old.refusals }
        ensures cause { PutCause self.old.faults self.new.faults result }
        ensures calls { self.new.calls ≡ counted_on self.old.calls }
        ensures failing { self.new.failing ≡ self.old.failing }
        ensures faults { self.new.faults ≡ counted_if (fails_next self.old) self.old.faults }
        ensures failed { IsErrOf result Failed ↔ IsTrue (fails_next self.old) }
    {
        if is_next_failing(&mut self.calls, &self.failing, &mut self.faults) {
            return Err(ShelfFault::Failed);
        }
        write(self.alloc, &mut self.log, name, bytes)?;
        Ok(())
    }
}

/// Whether the next call fails. It is counted, and so is its fault.
fn is_next_failing(calls: &mut u64, failing: &[u64], faults: &mut u64) -> bool
    ensures value { result ≡ is_failing failing.now (next_number calls.old) }
    ensures calls { calls.new ≡ counted_on calls.old }
    ensures faults { faults.new ≡ counted_if result faults.old }
    ensures later { faults.old ≤ faults.new }
{
    let Some(number) = take_number(calls) else {
        return false;
    };
    if !failing.contains(&number) {
        return false;
    }
    *faults = faults.saturating_add(1);
    true
}
