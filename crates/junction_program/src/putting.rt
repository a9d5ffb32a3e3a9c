ghost use Rattle.std.specs.Prelude.{◌≡◌, ◌⊎◌, [], ◌∷◌, OnOk, IfErr};
ghost use Rattle.junction_program.specs.Runs.{outside, ran};
ghost use Rattle.junction_program.specs.Outcomes.{Answer, Outcome, IsAnswered};
ghost use Rattle.junction_program.specs.Steps.{IsPut, FetchesNothing, PutsOne};

use crate::ending::{end_with, refuse};
use crate::status::Status;
use report_text::Refusal;
use sig_base::{Shelf, ShelfFault, Sink};
use std::alloc::Global;

/// Makes the name hold the bytes, or tells how the run ends without that.
pub fn put<S: Shelf, K: Sink>(
    alloc: Global,
    name: &str,
    bytes: &[u8],
    shelf: &mut S,
    out: &mut K,
) -> Result<(), Status>
    ensures put { OnOk result (IsPut name.now bytes.now
        (outside S.holds S.faults S.refusals shelf.old K.written K.faults out.old)
        (outside S.holds S.faults S.refusals shelf.new K.written K.faults out.new)) }
    ensures ends { IfErr result (λ status. Outcome (λ answer. ⊥) FetchesNothing
        (PutsOne name.now bytes.now) (ran S.holds S.faults S.refusals
        K.written K.faults shelf.old shelf.new out.old out.new status)) }
{
    match shelf.put(name, bytes) {
        Ok(()) => Ok(()),
        Err(ShelfFault::Failed) => {
            Err(refuse(alloc, Refusal::ShelfFailed, Status::ShelfFailed, out))
        }
        Err(ShelfFault::TooLong) => unreachable!(),
        Err(ShelfFault::Memory) => Err(Status::Memory),
    }
}

/// Makes the name hold the bytes, and then pushes the text of the status.
pub fn put_and_end<S: Shelf, K: Sink>(
    alloc: Global,
    name: &str,
    bytes: &[u8],
    text: &[u8],
    status: Status,
    shelf: &mut S,
    out: &mut K,
) -> Status
    requires answered { IsAnswered status }
    ensures { Outcome (λ (answer : Answer). answer ≡ record {
      status = status;
      text = text.now;
      puts = (name.now, bytes.now) ∷ [];
    }) FetchesNothing
        (PutsOne name.now bytes.now) (ran S.holds S.faults S.refusals K.written K.faults
        shelf.old shelf.new out.old out.new result) }
{
    match put(alloc, name, bytes, shelf, out) {
        Ok(()) => end_with(out, text, status),
        Err(status) => status,
    }
}
