ghost use Rattle.std.specs.Prelude.{◌≡◌};
ghost use Rattle.sig_base.specs.Fraction.{over};
ghost use Rattle.sig_base.specs.Ratio.{fraction_of};
ghost use Rattle.sample_junctions.specs.Sample.{IsSample};
ghost use Rattle.junction_program.specs.Runs.{ran};
ghost use Rattle.junction_program.specs.Outcomes.{Outcome};
ghost use Rattle.junction_program.specs.Steps.{FetchesNothing};
ghost use Rattle.junction_program.specs.Commands.{Samples, CertifiesSample, PutsSample, PutsCertificate};

use crate::designing::status_of_claim;
use crate::putting::{put, put_and_end};
use crate::status::Status;
use certificate_checker::{Verdict, check, rules_law};
use junction_files::print;
use junction_model::Junction;
use plan_certificate::write;
use plan_design::{Objective, design};
use report_text::summary;
use sample_junctions::sample;
use sig_base::{Ratio, Shelf, Sink};
use std::alloc::Global;

/// The most nodes that the search of a sample may visit.
const BUDGET: u64 = 200_000;

fn one() -> Ratio
    ensures { fraction_of result ≡ over 1 1 }
{
    let Some(one) = Ratio::in_lowest_terms(1, 1) else {
        unreachable!();
    };
    one
}

/// Designs a plan of a sample, puts its certificate and pushes its summary. The checker finds no broken rule in it.
fn certify_sample<S: Shelf, K: Sink>(
    alloc: Global,
    number: u32,
    junction: &Junction,
    certificate_name: &str,
    shelf: &mut S,
    out: &mut K,
) -> Status
    requires { IsSample number junction.now }
    ensures { Outcome (CertifiesSample number junction.now certificate_name.now) FetchesNothing
        (PutsCertificate number junction.now certificate_name.now) (ran S.holds S.faults S.refusals
        K.written K.faults shelf.old shelf.new out.old out.new result) }
{
    let Ok(designed) = design(alloc, junction, Objective::Capacity, one(), BUDGET) else {
        return Status::Memory;
    };
    let certificate = &designed.certificate;
    rules_law();
    if let Verdict::Broken(_, _, _) = check(junction, certificate) {
        unreachable!();
    }
    let Ok(text) = write(alloc, certificate) else {
        return Status::Memory;
    };
    let Ok(summary) = summary(alloc, number, junction, certificate, designed.plan.as_ref()) else {
        return Status::Memory;
    };
    let status = status_of_claim(certificate.claim);
    put_and_end(alloc, certificate_name, &text, &summary, status, shelf, out)
}

/// Makes the sample junction of a number and puts its file; designs a plan of the greatest reserve capacity, puts its
/// certificate and pushes its summary.
pub fn design_sample<S: Shelf, K: Sink>(
    alloc: Global,
    number: u32,
    junction_name: &str,
    certificate_name: &str,
    shelf: &mut S,
    out: &mut K,
) -> Status
    ensures { Outcome (Samples number junction_name.now certificate_name.now) FetchesNothing
        (PutsSample number junction_name.now certificate_name.now) (ran S.holds S.faults S.refusals
        K.written K.faults shelf.old shelf.new out.old out.new result) }
{
    let Ok(junction) = sample(alloc, number) else {
        return Status::Memory;
    };
    let Ok(file) = print(alloc, &junction) else {
        return Status::Memory;
    };
    match put(alloc, junction_name, &file, shelf, out) {
        Ok(()) => certify_sample(alloc, number, &junction, certificate_name, shelf, out),
        Err(status) => status,
    }
}
