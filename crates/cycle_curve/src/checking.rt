ghost use Rattle.std.specs.Prelude.{◌≡◌, ◌≤◌, ◌↔◌, IsTrue, IfOk, Ok, map};
ghost use Rattle.plan_model.specs.Fits.{group_count};
ghost use Rattle.plan_certificate.specs.Certificate.{certificate_of};
ghost use Rattle.plan_certificate.specs.Ranges.{IsInRange};
ghost use Rattle.cycle_curve.specs.Curve.{row_of};
ghost use Rattle.cycle_curve.specs.Judged.{HasOwnClaim, IsRowVerdict, IsVerdictOn, IsJudgement, AreInRange, AllHold};

use crate::laws::curve_law;
use crate::lines::has_its_lines;
use crate::reading::read_rows;
use crate::row::{CurveRow, CurveRows};
use crate::verdict::{CurveFault, CurveVerdict};
use certificate_checker::{Verdict, check};
use junction_model::Junction;
use plan_certificate::{Certificate, Claim};
use sig_base::NoMemory;
use std::alloc::Global;

/// Whether the certificate claims no shortest cycle, and asks for the least 0/1.
fn has_own_claim(certificate: &Certificate) -> bool
    ensures { IsTrue result ↔ HasOwnClaim (certificate_of certificate.now) }
{
    certificate.claim != Claim::Cycle
        && certificate.least.num() == 0
        && certificate.least.den() == 1
}

/// The verdict on one row.
fn row_verdict(alloc: Global, junction: &Junction, row: &CurveRow) -> Result<CurveVerdict, NoMemory>
    requires from { junction.now.least_cycle ≤ (row_of row.now).cycle }
    requires to { (row_of row.now).cycle ≤ junction.now.greatest_cycle }
    requires in_range { IsInRange (group_count junction.now) (row_of row.now).certificate }
    ensures { IfOk result (IsRowVerdict junction.now (row_of row.now)) }
{
    if !has_own_claim(&row.certificate) {
        return Ok(CurveVerdict::Claim(row.cycle));
    }
    let narrowed = junction.narrow(alloc, row.cycle)?;
    match check(&narrowed, &row.certificate) {
        Verdict::Proved => Ok(CurveVerdict::Proved),
        Verdict::Partial => Ok(CurveVerdict::Partial),
        Verdict::Broken(rule, _, node) => Ok(CurveVerdict::Broken(rule, row.cycle, node)),
    }
}

/// The verdict on the rows: that on the first one at fault.
fn rows_verdict(
    alloc: Global,
    junction: &Junction,
    rows: &CurveRows,
) -> Result<CurveVerdict, NoMemory>
    requires { AreInRange junction.now rows.now }
    ensures { IfOk result (IsVerdictOn junction.now rows.now) }
{
    junction.rules();
    let mut verdict = CurveVerdict::Proved;
    for row in rows.items() {
        match row_verdict(alloc, junction, row)? {
            CurveVerdict::Proved => {}
            CurveVerdict::Partial => verdict = CurveVerdict::Partial,
            fault => return Ok(fault),
        }
    }
    Ok(verdict)
}

/// Judges the bytes as a curve of the junction: first their lines, then the text of each line, then
/// each row, for the junction with the row's cycle alone. Of a row the claim and the least multiple
/// are judged before the rules of certificates. What is proved holds of all plans, whoever wrote the
/// bytes.
pub fn check_curve(
    alloc: Global,
    junction: &Junction,
    bytes: &[u8],
) -> Result<CurveVerdict, CurveFault>
    ensures judgement { IsJudgement junction.now bytes.now result }
    ensures proved { result ≡ Ok CurveVerdict.Proved → AllHold junction.now bytes.now }
{
    curve_law();
    junction.rules();
    if !has_its_lines(junction, bytes) {
        return Err(CurveFault::Lines);
    }
    let rows = read_rows(alloc, junction, bytes)?;
    let verdict = rows_verdict(alloc, junction, &rows)?;
    Ok(verdict)
}
