ghost use Rattle.std.specs.Prelude.{◌≡◌, ◌++◌, take, None, Some, Err, IsErrOf, OnOk, OnErr, is_some};
ghost use Rattle.std.specs.Option.{IsSomeAnd};
ghost use Rattle.sig_base.specs.CallNumber.{next_number};
ghost use Rattle.sig_base.specs.MemorySink.{empty_sink, kept_of, kept_by, next_kept, with_failing};
ghost use Rattle.sig_base.specs.FaultCount.{counted_if, counted_on};
ghost use Rattle.sig_base.specs.Sink.{Pushes};
ghost use Rattle.sig_base.specs.declared.sink.SinkFault.TheVariants.{Failed, Memory};

use crate::call_number::take_number;
use crate::no_memory::NoMemory;
use crate::sink::{Sink, SinkFault};
use std::alloc::Global;
use std::collections::VecDeque;
use std::marker::Model;

/// A sink in memory, which tells what was written. It fails at the pushes that `fail_at` names.
#[derive(Drop)]
pub struct MemorySink {
    bytes: Vec<u8>,
    pushes: u64,
    failing: VecDeque<(u64, u64)>,
    faults: u64,
}

impl Model for MemorySink {
    ghost use Rattle.sig_base.specs.MemorySink.{MemorySinkState};

    ghost Value = { MemorySinkState };

    ghost view = { λ s. record { bytes = s.bytes.items; pushes = s.pushes; failing = s.failing.items; faults = s.faults } };
}

impl MemorySink {
    /// A sink to which nothing was written. Its bytes are allocated by `alloc`.
    pub fn new(alloc: Global) -> MemorySink
        ensures { result ≡ empty_sink }
    {
        MemorySink {
            bytes: Vec::new(alloc),
            pushes: 0,
            failing: VecDeque::new(alloc),
            faults: 0,
        }
    }

    /// Lets the push of that number fail after `kept` bytes, or after all bytes of a shorter piece.
    /// Pushes are numbered from 1 to 18446744073709551615; a later push has no number and doesn't
    /// fail. Where a number is given more than once, the `kept` given last holds.
    pub fn fail_at(&mut self, push: u64, kept: u64) -> Result<(), NoMemory>
        ensures ok { OnOk result (self.new ≡ with_failing self.old push kept) }
        ensures err { OnErr result (self.new ≡ self.old) }
    {
        self.failing.push_front((push, kept))?;
        Ok(())
    }

    /// What was written.
    pub fn bytes(&self) -> &[u8]
        ensures { result.now ≡ self.now.bytes }
    {
        self.bytes.as_slice()
    }
}

impl Sink for MemorySink {
    ghost written = { λ s. Some s.bytes };

    ghost faults = { λ s. s.faults };

    fn push(&mut self, bytes: &[u8]) -> Result<(), SinkFault>
        ensures pushes { Pushes (Some self.old.bytes) (Some self.new.bytes) bytes.now
            self.old.faults self.new.faults result }
        ensures count { self.new.pushes ≡ counted_on self.old.pushes }
        ensures failing { self.new.failing ≡ self.old.failing }
        ensures faults { self.new.faults
            ≡ counted_if (is_some (next_kept self.old)) self.old.faults }
        ensures ok { OnOk result (next_kept self.old ≡ None) }
        ensures failed { IsErrOf result Failed →
            IsSomeAnd (next_kept self.old) (λ kept.
            self.new.bytes ≡ self.old.bytes ++ take kept bytes.now) }
    {
        let Some(kept) = take_kept(&mut self.pushes, &self.failing) else {
            return append(&mut self.bytes, bytes);
        };
        self.faults = self.faults.saturating_add(1);
        let kept = kept.min(bytes.len() as u64) as usize;
        append(&mut self.bytes, &bytes[..kept])?;
        Err(SinkFault::Failed)
    }
}

/// Counts one more push; how many bytes it keeps, where it fails.
fn take_kept(pushes: &mut u64, failing: &VecDeque<(u64, u64)>) -> Option<u64>
    ensures value { result ≡ kept_by failing.now.items (next_number pushes.old) }
    ensures count { pushes.new ≡ counted_on pushes.old }
{
    match take_number(pushes) {
        Some(number) => kept_of(failing, number),
        None => None,
    }
}

/// How many bytes the push of this number keeps, where it fails.
fn kept_of(failing: &VecDeque<(u64, u64)>, number: u64) -> Option<u64>
    ensures { result ≡ kept_of failing.now.items number }
{
    for (failing_number, kept) in failing {
        if *failing_number == number {
            return Some(*kept);
        }
    }
    None
}

fn append(written: &mut Vec<u8>, bytes: &[u8]) -> Result<(), SinkFault>
    ensures ok { OnOk result (written.new.items ≡ written.old.items ++ bytes.now) }
    ensures err { OnErr result (written.new.items ≡ written.old.items) }
    ensures memory { OnErr result (result ≡ Err Memory) }
{
    written.extend_from_slice(bytes)?;
    Ok(())
}
