ghost use Rattle.std.specs.Prelude.{◌≡◌, [], IfOk, OnOk, IfErr};
ghost use Rattle.junction_program.specs.Runs.{outside, ran};
ghost use Rattle.junction_program.specs.Outcomes.{Outcome};
ghost use Rattle.junction_program.specs.Steps.{IsUnchanged, IsFetched};

use crate::ending::refuse;
use crate::status::Status;
use report_text::Refusal;
use sig_base::{Shelf, ShelfFault, Sink};
use std::alloc::Global;

/// The bytes of a name, or how the run ends without them.
pub fn fetched<S: Shelf, K: Sink>(
    alloc: Global,
    name: &str,
    limit: u32,
    shelf: &mut S,
    out: &mut K,
) -> Result<Vec<u8>, Status>
    ensures unchanged { OnOk result (IsUnchanged
        (outside S.holds S.faults S.refusals shelf.old K.written K.faults out.old)
        (outside S.holds S.faults S.refusals shelf.new K.written K.faults out.new)) }
    ensures bytes { IfOk result (λ v. IsFetched (S.holds shelf.old) name.now limit v.items) }
    ensures ends { IfErr result (λ status. Outcome (λ answer. ⊥)
        (λ wanted most. (wanted ≡ name.now) × (most ≡ limit)) (λ made. made ≡ [])
        (ran S.holds S.faults S.refusals K.written K.faults
        shelf.old shelf.new out.old out.new status)) }
{
    match shelf.fetch(alloc, name, limit) {
        Ok(bytes) => Ok(bytes),
        Err(ShelfFault::Failed) => {
            Err(refuse(alloc, Refusal::ShelfFailed, Status::ShelfFailed, out))
        }
        Err(ShelfFault::TooLong) => Err(refuse(alloc, Refusal::TooLong, Status::TooLong, out)),
        Err(ShelfFault::Memory) => Err(Status::Memory),
    }
}
