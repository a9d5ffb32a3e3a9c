ghost use Rattle.std.specs.Prelude.{◌≡◌, ◌≤◌, map, option_map, IsNone, IfOk, IfErr, IfSome};
ghost use Rattle.serde_json.specs.View.{view, members_view};
ghost use Rattle.sig_base.specs.Fraction.{Fraction, over};
ghost use Rattle.sig_base.specs.Ratio.{fraction_of};
ghost use Rattle.plan_certificate.specs.Certificate.{CertificateView, certificate_of};
ghost use Rattle.plan_certificate.specs.Members.{budget_under, claim_of, claim_under, fraction_of_two, fraction_under, IsLeastUnder, certificate_beside, IsGiven};
ghost use Rattle.plan_certificate.specs.Ranges.{IsLeast};
ghost use Rattle.plan_certificate.specs.Reads.{IsCertificate, IsFaultOf, Spells, IsRefusal, GivesBack};

use crate::branches::branches_in;
use crate::certificate::Certificate;
use crate::claim::Claim;
use crate::fault::CertificateFault;
use crate::member::{list, member, whole_in};
use crate::plan_entry::plan_or_null_in;
use crate::shape::is_certificate;
use serde_json::{Map, Value};
use sig_base::{NoMemory, Ratio};
use std::alloc::Global;

/// The greatest numerator and denominator of the least multiplier.
const GREATEST_PART: u64 = 1_000_000;

fn budget_in(map: &Map<String, Value>) -> Option<u64>
    ensures { result ≡ budget_under (members_view map.now.entries) }
{
    let number = whole_in(map, "budget")?;
    if number >= 1 { Some(number) } else { None }
}

fn claim_of(text: &str) -> Option<Claim>
    ensures { result ≡ claim_of text.now }
{
    match text {
        "capacity" => Some(Claim::Capacity),
        "cycle" => Some(Claim::Cycle),
        "infeasible" => Some(Claim::Infeasible),
        "stopped" => Some(Claim::Stopped),
        _ => None,
    }
}

fn claim_in(map: &Map<String, Value>) -> Option<Claim>
    ensures { result ≡ claim_under (members_view map.now.entries) }
{
    match member(map, "claim")?.as_str() {
        Some(text) => claim_of(text),
        None => None,
    }
}

fn parts_of_two(values: &[Value]) -> Option<(u64, u64)>
    ensures { option_map (λ parts. over parts.0 parts.1) result
        ≡ fraction_of_two (map view values.now) }
{
    let [num, den] = values else {
        return None;
    };
    let num = num.as_u64()?;
    let den = den.as_u64()?;
    Some((num, den))
}

fn parts_in(map: &Map<String, Value>) -> Option<(u64, u64)>
    ensures { option_map (λ parts. over parts.0 parts.1) result
        ≡ fraction_under (members_view map.now.entries) }
{
    let Some(value) = member(map, "least") else {
        return None;
    };
    match list(value) {
        Some(values) => parts_of_two(values),
        None => None,
    }
}

fn least_from(num: u64, den: u64) -> Option<Ratio>
    ensures some { IfSome result (λ r. (fraction_of r ≡ over num den) × IsLeast (over num den)) }
    ensures none { IsNone result → ¬ IsLeast (over num den) }
{
    if num <= GREATEST_PART && den <= GREATEST_PART {
        Ratio::in_lowest_terms(num, den)
    } else {
        None
    }
}

fn least_in(map: &Map<String, Value>) -> Option<Ratio>
    ensures some { IfSome result
        (λ r. IsLeastUnder (members_view map.now.entries) (fraction_of r)) }
    ensures none { IsNone result
        → (f : Fraction) → ¬ IsLeastUnder (members_view map.now.entries) f }
{
    let (num, den) = parts_in(map)?;
    least_from(num, den)
}

fn certificate_beside(
    alloc: Global,
    map: &Map<String, Value>,
    groups: usize,
    least: Ratio,
) -> Result<Option<Certificate>, NoMemory>
    requires low { 2 ≤ groups }
    requires high { groups ≤ 16 }
    ensures { IfOk result (λ o. option_map certificate_of o
        ≡ certificate_beside groups (fraction_of least) (members_view map.now.entries)) }
{
    let Some(budget) = budget_in(map) else {
        return Ok(None);
    };
    let Some(claim) = claim_in(map) else {
        return Ok(None);
    };
    let Some(plan) = plan_or_null_in(alloc, map, groups)? else {
        return Ok(None);
    };
    match branches_in(alloc, map, groups)? {
        Some(branches) => Ok(Some(Certificate {
            branches,
            budget,
            claim,
            least,
            plan,
        })),
        None => Ok(None),
    }
}

/// The certificate of an object of the right shape; `Ok(None)` where a part is out of its range.
fn certificate_in(
    alloc: Global,
    map: &Map<String, Value>,
    groups: usize,
) -> Result<Option<Certificate>, NoMemory>
    requires low { 2 ≤ groups }
    requires high { groups ≤ 16 }
    ensures { IfOk result (λ o. IsGiven groups (members_view map.now.entries)
        (option_map certificate_of o)) }
{
    match least_in(map) {
        Some(least) => certificate_beside(alloc, map, groups, least),
        None => Ok(None),
    }
}

/// The certificate of a value, or its first fault.
fn certificate_from(
    alloc: Global,
    value: &Value,
    groups: usize,
) -> Result<Certificate, CertificateFault>
    requires low { 2 ≤ groups }
    requires high { groups ≤ 16 }
    ensures certificate { IfOk result
        (λ c. IsCertificate groups (view value.now) (certificate_of c)) }
    ensures fault { IfErr result (IsFaultOf groups (view value.now)) }
{
    let Some(map) = value.as_object() else {
        return Err(CertificateFault::Shape);
    };
    if !is_certificate(map) {
        return Err(CertificateFault::Shape);
    }
    match certificate_in(alloc, map, groups)? {
        Some(certificate) => Ok(certificate),
        None => Err(CertificateFault::Range),
    }
}

/// The certificate that the bytes spell for a junction of this number of groups, or the first fault. Bytes that spell
/// a certificate are read as this one, or memory is wanting.
pub fn read(alloc: Global, bytes: &[u8], groups: usize) -> Result<Certificate, CertificateFault>
    requires low { 2 ≤ groups }
    requires high { groups ≤ 16 }
    ensures certificate { IfOk result (λ c. Spells groups bytes.now (certificate_of c)) }
    ensures fault { IfErr result (IsRefusal groups bytes.now) }
    ensures given_back { (c : CertificateView) → Spells groups bytes.now c → GivesBack c result }
{
    match Value::from_slice(alloc, bytes) {
        Ok(value) => certificate_from(alloc, &value, groups),
        Err(error) if error.is_memory() => Err(CertificateFault::Memory),
        Err(_) => Err(CertificateFault::NotJson),
    }
}
