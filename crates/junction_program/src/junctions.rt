ghost use Rattle.std.specs.Prelude.{◌≡◌, OnOk, IfOk, IfErr};
ghost use Rattle.junction_files.specs.Line.{fault_line_of};
ghost use Rattle.junction_program.specs.Runs.{outside, ran};
ghost use Rattle.junction_program.specs.Outcomes.{Outcome};
ghost use Rattle.junction_program.specs.Steps.{IsUnchanged, IsPushed, sink_of};
ghost use Rattle.junction_program.specs.Commands.{RefusesJunction, Accepts, FetchesJunction, PutsNothing};

use crate::ending::end_with;
use crate::fetching::fetched;
use crate::status::Status;
use junction_files::{JunctionFault, Kind, Place, fault_line, read};
use junction_model::Junction;
use sig_base::{Shelf, Sink};
use std::alloc::Global;

/// The most bytes of a junction file.
const JUNCTION_LIMIT: u32 = 1_048_576;

/// Pushes the line of a refused junction.
fn refuse_junction<K: Sink>(alloc: Global, kind: Kind, place: Place, out: &mut K) -> Status
    ensures { IsPushed (fault_line_of kind place) Status.BadJunction
        (sink_of K.written K.faults out.old) (sink_of K.written K.faults out.new) result }
{
    match fault_line(alloc, kind, place) {
        Ok(line) => end_with(out, &line, Status::BadJunction),
        Err(_) => Status::Memory,
    }
}

/// The junction under a name, or how the run ends without it.
pub fn accepted_junction<S: Shelf, K: Sink>(
    alloc: Global,
    name: &str,
    shelf: &mut S,
    out: &mut K,
) -> Result<Junction, Status>
    ensures unchanged { OnOk result (IsUnchanged
        (outside S.holds S.faults S.refusals shelf.old K.written K.faults out.old)
        (outside S.holds S.faults S.refusals shelf.new K.written K.faults out.new)) }
    ensures accepted { IfOk result (λ junction. Accepts (S.holds shelf.old) name.now junction) }
    ensures ends { IfErr result (λ status. Outcome (RefusesJunction (S.holds shelf.old) name.now)
        (FetchesJunction name.now) PutsNothing (ran S.holds S.faults S.refusals
        K.written K.faults shelf.old shelf.new out.old out.new status)) }
{
    let bytes = match fetched(alloc, name, JUNCTION_LIMIT, shelf, out) {
        Ok(bytes) => bytes,
        Err(status) => return Err(status),
    };
    match read(alloc, &bytes) {
        Ok(junction) => Ok(junction),
        Err(JunctionFault::Refused(kind, place)) => Err(refuse_junction(alloc, kind, place, out)),
        Err(JunctionFault::Memory) => Err(Status::Memory),
    }
}
