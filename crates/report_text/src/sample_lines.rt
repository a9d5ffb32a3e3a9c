ghost use Rattle.std.specs.Prelude.{◌≡◌, ◌++◌, decimal, codes, OnOk, IfOk};
ghost use Rattle.plan_certificate.specs.Certificate.{certificate_of};
ghost use Rattle.report_text.specs.Pieces.{GrewBy};
ghost use Rattle.report_text.specs.Report.{IsPlanOf};
ghost use Rattle.report_text.specs.Summary.{count_line, size_lines, closing_line, AreCycleLinesIfAny, IsSummary};

use crate::head::{put_claim, put_nodes};
use crate::plan_lines::put_cycle_lines;
use junction_model::Junction;
use plan_certificate::{Certificate, Claim};
use plan_model::FittedPlan;
use sig_base::{NoMemory, put, put_number};
use std::alloc::Global;

fn put_count(text: &mut Vec<u8>, words: &str, count: usize) -> Result<(), NoMemory>
    ensures { OnOk result (text.new.items ≡ text.old.items ++ count_line words.now count) }
{
    put(text, words)?;
    put_number(text, count)?;
    put(text, "\n")
}

fn put_sizes(text: &mut Vec<u8>, junction: &Junction) -> Result<(), NoMemory>
    ensures { OnOk result (text.new.items ≡ text.old.items ++ size_lines junction.now) }
{
    put_count(text, "groups ", junction.groups().len())?;
    put_count(text, "lanes ", junction.lanes().len())?;
    put_count(text, "conflicts ", junction.conflicts().pair_count())
}

fn put_closing(text: &mut Vec<u8>, claim: Claim) -> Result<(), NoMemory>
    ensures { OnOk result (text.new.items ≡ text.old.items ++ closing_line claim) }
{
    match claim {
        Claim::Capacity | Claim::Cycle | Claim::Infeasible => put(text, "verdict proved\n"),
        Claim::Stopped => put(text, "verdict partial\n"),
    }
}

fn put_cycle_if_any(
    text: &mut Vec<u8>,
    junction: &Junction,
    certificate: &Certificate,
    plan: Option<&FittedPlan>,
) -> Result<(), NoMemory>
    requires { IsPlanOf junction.now (certificate_of certificate.now) plan }
    ensures { OnOk result
        (GrewBy (AreCycleLinesIfAny junction.now (certificate_of certificate.now).plan)
        text.old.items text.new.items) }
{
    match plan {
        Some(plan) => put_cycle_lines(text, plan),
        None => Ok(()),
    }
}

/// The summary of the sample of this number: its sizes, the claim of its certificate with the number of visited nodes,
/// the cycle and multiplier of the certificate's plan, if any, and what a check says of it.
pub fn summary(
    alloc: Global,
    number: u32,
    junction: &Junction,
    certificate: &Certificate,
    plan: Option<&FittedPlan>,
) -> Result<Vec<u8>, NoMemory>
    requires { IsPlanOf junction.now (certificate_of certificate.now) plan }
    ensures { IfOk result (λ text.
        IsSummary number junction.now (certificate_of certificate.now) text.items) }
{
    let mut text = Vec::new(alloc);
    put_count(&mut text, "sample ", number as usize)?;
    put_sizes(&mut text, junction)?;
    put_claim(&mut text, certificate.claim)?;
    put_nodes(&mut text, certificate.nodes())?;
    put_cycle_if_any(&mut text, junction, certificate, plan)?;
    put_closing(&mut text, certificate.claim)?;
    Ok(text)
}
