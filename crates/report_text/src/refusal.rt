ghost use Rattle.std.specs.Prelude.{◌≡◌, ◌≢◌, ◌++◌, OnOk, IfOk};
ghost use Rattle.report_text.specs.Refusal.{refusal_line};
ghost use Rattle.plan_certificate.specs.declared.fault.CertificateFault.TheVariants.{Memory};
ghost use Rattle.report_text.specs.declared.refusal.Refusal.TheVariants.{BadCertificate};

use plan_certificate::CertificateFault;
use sig_base::{NoMemory, put, put_number};
use std::alloc::Global;

/// Why a run ends with no more than a line. The line of a refused junction file is `junction_files::fault_line`.
#[derive(Clone, Copy, Debug, PartialEq, Eq)]
pub enum Refusal {
    /// The words have no form of the command line.
    BadWords,
    /// The bytes of the certificate are refused for this fault, which isn't want of memory.
    BadCertificate(CertificateFault),
    /// The shelf failed, or doesn't hold a name that was asked for.
    ShelfFailed,
    /// A file is longer than its limit.
    TooLong,
}

fn put_bad_certificate(text: &mut Vec<u8>, fault: CertificateFault) -> Result<(), NoMemory>
    ensures { OnOk result
        (text.new.items ≡ text.old.items ++ refusal_line (BadCertificate fault)) }
{
    put(text, "bad certificate ")?;
    put_number(text, fault.number())?;
    put(text, " ")?;
    put(text, fault.word())?;
    put(text, "\n")
}

/// The line that is printed for a refusal.
pub fn refusal_text(alloc: Global, refusal: Refusal) -> Result<Vec<u8>, NoMemory>
    requires { refusal ≢ BadCertificate Memory }
    ensures { IfOk result (λ text. text.items ≡ refusal_line refusal) }
{
    let mut text = Vec::new(alloc);
    match refusal {
        Refusal::BadWords => put(&mut text, "bad words\n")?,
        Refusal::BadCertificate(fault) => put_bad_certificate(&mut text, fault)?,
        Refusal::ShelfFailed => put(&mut text, "shelf failed\n")?,
        Refusal::TooLong => put(&mut text, "too long\n")?,
    }
    Ok(text)
}
