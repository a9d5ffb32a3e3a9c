//! Certificates in their text, and what the checker says of each.

mod claims;
mod rules;
mod second_version;
mod trees;
mod unvisited;

use certificate_checker::{Verdict, check};
use junction_model::Junction;
use std::alloc::{AllocError, Global};
use std::process::Abort;
use std::test::Fail;

/// The claim, the least, the plan and the budget, as they stand in the text.
type Claimed<'a> = (&'a str, &'a str, &'a str, u64);

/// That no plan meets 1/1.
const INFEASIBLE: Claimed = ("infeasible", "[1,1]", "null", 1);

/// A search that was to visit one node.
const STOPPED: Claimed = ("stopped", "[1,1]", "null", 1);

/// The trees, what is claimed, and the verdict.
type Row<'a> = (&'a str, Claimed<'a>, Verdict);

/// The text of a certificate, in the second version, which has every tree.
fn text_of(alloc: Global, branches: &str, claimed: Claimed) -> Result<String, AllocError> {
    let (claim, least, plan, budget) = claimed;
    let first = format!(in alloc; "\"branches\":{branches},\"budget\":{budget}")?;
    let second = format!(in alloc; "\"claim\":\"{claim}\",\"least\":{least},\"plan\":{plan}")?;
    format!(in alloc; "{{{first},{second},\"version\":2}}")
}

/// What is said of the certificate of this text.
fn judged(rt: &impl Abort, alloc: Global, junction: &Junction, text: &str) -> Verdict {
    junction.rules();
    let groups = junction.groups().len();
    match plan_certificate::read(alloc, text.as_bytes(), groups) {
        Ok(certificate) => check(junction, &certificate),
        Err(_) => panic!(rt; "no certificate"),
    }
}

fn check_rows(
    rt: &impl Abort,
    alloc: Global,
    junction: &Junction,
    rows: &[Row],
) -> Result<(), Fail> {
    for (branches, claimed, want) in rows {
        let text = text_of(alloc, branches, *claimed)?;
        assert_eq!(rt; judged(rt, alloc, junction, &text), *want, "{text}");
    }
    Ok(())
}
