ghost use Rattle.std.specs.Prelude.{◌≡◌, ◌≤◌, IfOk, IfErr, drop, length};
ghost use Rattle.plan_model.specs.Fits.{group_count};
ghost use Rattle.plan_certificate.specs.Certificate.{certificate_of};
ghost use Rattle.plan_certificate.specs.Reads.{Spells};
ghost use Rattle.cycle_curve.specs.Judged.{SpellRows, IsRefusedLine, IsFaultOfLines};
ghost use Rattle.cycle_curve.specs.Lines.{HasItsLines};

use crate::lines::line_end;
use crate::row::{CurveRow, CurveRows};
use crate::verdict::CurveFault;
use junction_model::Junction;
use plan_certificate::{Certificate, CertificateFault, read};
use std::alloc::Global;

/// The certificate of a line, or the fault of that line.
fn read_line(
    alloc: Global,
    groups: usize,
    line: u32,
    text: &[u8],
) -> Result<Certificate, CurveFault>
    requires low { 2 ≤ groups }
    requires high { groups ≤ 16 }
    ensures certificate { IfOk result (λ c. Spells groups text.now (certificate_of c)) }
    ensures fault { IfErr result (IsRefusedLine groups text.now line) }
{
    match read(alloc, text, groups) {
        Ok(certificate) => Ok(certificate),
        Err(CertificateFault::NotJson) => Err(CurveFault::NotJson(line)),
        Err(CertificateFault::Shape) => Err(CurveFault::Shape(line)),
        Err(CertificateFault::Range) => Err(CurveFault::Range(line)),
        Err(CertificateFault::Memory) => Err(CurveFault::Memory),
    }
}

/// The bytes from a place on.
fn behind(bytes: &[u8], at: usize) -> &[u8]
    requires { at ≤ length bytes.now }
    ensures { result.now ≡ drop at bytes.now }
{
    &bytes[at..]
}

/// The rows that the lines spell, or the fault of the first line that spells none.
pub fn read_rows(alloc: Global, junction: &Junction, bytes: &[u8]) -> Result<CurveRows, CurveFault>
    requires { HasItsLines junction.now bytes.now }
    ensures rows { IfOk result (SpellRows junction.now bytes.now) }
    ensures fault { IfErr result (IsFaultOfLines junction.now bytes.now) }
{
    junction.rules();
    let groups = junction.groups().len();
    let mut rows = CurveRows::new(alloc);
    let mut rest = bytes;
    let mut line = 0;
    for cycle in junction.least_cycle()..junction.greatest_cycle() + 1 {
        line += 1;
        let end = line_end(rest);
        let certificate = match read_line(alloc, groups, line, &rest[..end]) {
            Ok(certificate) => certificate,
            Err(fault) => return Err(fault),
        };
        rows.push(CurveRow { cycle, certificate })?;
        rest = behind(rest, end + 1);
    }
    Ok(rows)
}
