ghost use Rattle.std.specs.Prelude.{◌≡◌, ◌≤◌};
ghost use Rattle.sig_base.specs.Ratio.{fraction_of};
ghost use Rattle.plan_certificate.specs.Ranges.{IsLeast};
ghost use Rattle.junction_program.specs.Runs.{ran};
ghost use Rattle.junction_program.specs.Outcomes.{Outcome, IsAnswered};
ghost use Rattle.junction_program.specs.Commands.{DesignAnswers, FetchesJunction, PutsDesign, status_of_claim};

use crate::junctions::accepted_junction;
use crate::putting::put_and_end;
use crate::status::Status;
use plan_certificate::{Claim, write};
use plan_design::{Objective, design};
use report_text::report;
use sig_base::{Ratio, Shelf, Sink};
use std::alloc::Global;

/// The status of a design by its claim.
pub fn status_of_claim(claim: Claim) -> Status
    ensures value { result ≡ status_of_claim claim }
    ensures answered { IsAnswered result }
{
    match claim {
        Claim::Capacity | Claim::Cycle => Status::Done,
        Claim::Infeasible => Status::Infeasible,
        Claim::Stopped => Status::Stopped,
    }
}

/// Designs a plan of the junction, puts its certificate and pushes its report.
pub fn design_plan<S: Shelf, K: Sink>(
    alloc: Global,
    objective: Objective,
    junction_name: &str,
    certificate_name: &str,
    least: Ratio,
    budget: u64,
    shelf: &mut S,
    out: &mut K,
) -> Status
    requires least { IsLeast (fraction_of least) }
    requires budget { 1 ≤ budget }
    ensures { Outcome (DesignAnswers (S.holds shelf.old) junction_name.now certificate_name.now
        objective (fraction_of least) budget) (FetchesJunction junction_name.now)
        (PutsDesign (S.holds shelf.old) junction_name.now certificate_name.now
        objective (fraction_of least) budget) (ran S.holds S.faults S.refusals
        K.written K.faults shelf.old shelf.new out.old out.new result) }
{
    let junction = match accepted_junction(alloc, junction_name, shelf, out) {
        Ok(junction) => junction,
        Err(status) => return status,
    };
    let Ok(designed) = design(alloc, &junction, objective, least, budget) else {
        return Status::Memory;
    };
    let certificate = &designed.certificate;
    let Ok(text) = write(alloc, certificate) else {
        return Status::Memory;
    };
    let Ok(report) = report(alloc, &junction, certificate, designed.plan.as_ref()) else {
        return Status::Memory;
    };
    let status = status_of_claim(certificate.claim);
    put_and_end(alloc, certificate_name, &text, &report, status, shelf, out)
}
