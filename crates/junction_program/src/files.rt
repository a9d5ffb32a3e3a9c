ghost use Rattle.std.specs.Prelude.{◌⊎◌, OnOk, IfOk, IfErr};
ghost use Rattle.plan_model.specs.Fits.{group_count};
ghost use Rattle.plan_certificate.specs.Certificate.{certificate_of};
ghost use Rattle.plan_certificate.specs.Ranges.{IsInRange};
ghost use Rattle.junction_program.specs.Runs.{outside, ran};
ghost use Rattle.junction_program.specs.Outcomes.{Outcome};
ghost use Rattle.junction_program.specs.Steps.{IsUnchanged};
ghost use Rattle.junction_program.specs.Commands.{Accepts, Finds, RefusesFiles, FetchesBoth, PutsNothing};

use crate::ending::refuse;
use crate::fetching::fetched;
use crate::junctions::accepted_junction;
use crate::status::Status;
use junction_files::reading_laws;
use junction_model::Junction;
use plan_certificate::{Certificate, CertificateFault, read};
use report_text::Refusal;
use sig_base::{Shelf, Sink};
use std::alloc::Global;

/// The most bytes of a certificate.
const CERTIFICATE_LIMIT: u32 = 33_554_432;

/// A junction, and a certificate for it.
#[derive(Drop)]
pub struct Files {
    pub junction: Junction,
    pub certificate: Certificate,
}

/// The junction and the certificate under their names, or how the run ends without them.
pub fn accepted_files<S: Shelf, K: Sink>(
    alloc: Global,
    junction_name: &str,
    certificate_name: &str,
    shelf: &mut S,
    out: &mut K,
) -> Result<Files, Status>
    ensures unchanged { OnOk result (IsUnchanged
        (outside S.holds S.faults S.refusals shelf.old K.written K.faults out.old)
        (outside S.holds S.faults S.refusals shelf.new K.written K.faults out.new)) }
    ensures accepted { IfOk result (λ files.
        Accepts (S.holds shelf.old) junction_name.now files.junction) }
    ensures found { IfOk result (λ files. Finds (S.holds shelf.old) certificate_name.now
        files.junction (certificate_of files.certificate)) }
    ensures in_range { IfOk result (λ files.
        IsInRange (group_count files.junction) (certificate_of files.certificate)) }
    ensures ends { IfErr result (λ status. Outcome
        (RefusesFiles (S.holds shelf.old) junction_name.now certificate_name.now)
        (FetchesBoth (S.holds shelf.old) junction_name.now certificate_name.now) PutsNothing
        (ran S.holds S.faults S.refusals K.written K.faults
        shelf.old shelf.new out.old out.new status)) }
{
    reading_laws();
    let junction = match accepted_junction(alloc, junction_name, shelf, out) {
        Ok(junction) => junction,
        Err(status) => return Err(status),
    };
    let bytes = match fetched(alloc, certificate_name, CERTIFICATE_LIMIT, shelf, out) {
        Ok(bytes) => bytes,
        Err(status) => return Err(status),
    };
    junction.rules();
    let certificate = match read(alloc, &bytes, junction.groups().len()) {
        Ok(certificate) => certificate,
        Err(CertificateFault::Memory) => return Err(Status::Memory),
        Err(fault) => {
            let refusal = Refusal::BadCertificate(fault);
            return Err(refuse(alloc, refusal, Status::BadCertificate, out));
        }
    };
    Ok(Files {
        junction,
        certificate,
    })
}
