ghost use Rattle.std.specs.Prelude.{◌≡◌, ◌≤◌, ◌<◌, ◌+◌, ◌↔◌, length, MatchOption};
ghost use Rattle.plan_model.specs.Fits.{group_count};
ghost use Rattle.plan_certificate.specs.Certificate.{certificate_of};
ghost use Rattle.plan_certificate.specs.Ranges.{IsInRange};
ghost use Rattle.plan_certificate.specs.declared.claim.Claim.TheVariants.{Stopped};
ghost use Rattle.certificate_checker.specs.Basis.{basis_of, basis_for, IsBasis};
ghost use Rattle.certificate_checker.specs.CertificateRules.{BreaksNoRule, IsFirstOfAll};
ghost use Rattle.certificate_checker.specs.ClaimTrees.{HasItsTrees, target_of};
ghost use Rattle.certificate_checker.specs.PlanRules.{HasItsPlan, NoTreeBelow};
ghost use Rattle.certificate_checker.specs.Proves.{ProvesClaim, IsTrueClaim, IsTruePart};
ghost use Rattle.certificate_checker.specs.Verdict.{IsVerdict, IsVerdictOn};

use crate::basis::Basis;
use crate::laws::{part_law, proof_law, rules_law};
use crate::plan_rules::{has_its_trees, plan_rules};
use crate::rule::Rule;
use crate::tree_rules::tree_fault;
use crate::verdict::Verdict;
use junction_model::Junction;
use least_greens::needs;
use plan_certificate::{Certificate, Claim};
use plan_model::{ALL_LANES, all_lanes_law, fault_law, fault_names_law};
use sig_base::{Ratio, Target};

/// The target of the tree of a cycle; the multiple is that of all targets.
fn target(certificate: &Certificate, multiple: Ratio, cycle: u32) -> Target
    ensures { result ≡ target_of (certificate_of certificate.now) multiple cycle }
{
    match (certificate.claim, &certificate.plan) {
        (Claim::Capacity | Claim::Stopped, Some(plan)) => {
            if cycle < plan.cycle() {
                Target::Reach(multiple)
            } else {
                Target::Beat(multiple)
            }
        }
        _ => Target::Reach(multiple),
    }
}

/// What the tree of this number is judged by.
fn basis_of_tree<'j>(
    junction: &'j Junction,
    certificate: &Certificate,
    multiple: Ratio,
    number: usize,
) -> Basis<'j>
    requires within { number < length (certificate_of certificate.now).branches }
    requires cycle { junction.now.least_cycle + number ≤ junction.now.greatest_cycle }
    ensures value { basis_of result ≡
        basis_for junction.now (certificate_of certificate.now) multiple number }
    ensures basis { IsBasis (basis_of result) }
{
    all_lanes_law();
    junction.rules();
    let cycle = junction.least_cycle() + number as u32;
    let target = target(certificate, multiple, cycle);
    let needs = needs(junction, ALL_LANES, target, cycle);
    Basis {
        conflicts: junction.conflicts(),
        needs,
        cycle,
        unfinished: certificate.claim == Claim::Stopped
            && number + 1 == certificate.branches.items().len(),
    }
}

/// The first rule that a tree breaks, with its cycle and place.
fn trees_fault(
    junction: &Junction,
    certificate: &Certificate,
    multiple: Ratio,
) -> Option<(Rule, u32, u64)>
    requires in_range { IsInRange (group_count junction.now) (certificate_of certificate.now) }
    requires planned { HasItsPlan junction.now (certificate_of certificate.now) multiple }
    requires trees { HasItsTrees junction.now (certificate_of certificate.now).claim
        (certificate_of certificate.now).plan (length (certificate_of certificate.now).branches) }
    ensures { MatchOption result
        (NoTreeBelow junction.now (certificate_of certificate.now) multiple
        (length (certificate_of certificate.now).branches))
        (λ found. IsFirstOfAll junction.now (certificate_of certificate.now)
        found.0 found.1 found.2) }
{
    fault_law();
    junction.rules();
    let trees = certificate.branches.items();
    for number in 0..trees.len() {
        let basis = basis_of_tree(junction, certificate, multiple, number);
        if let Some((rule, place)) = tree_fault(&basis, trees[number].items()) {
            return Some((rule, basis.cycle, place as u64));
        }
    }
    None
}

/// The first broken rule; or what the certificate shows, where none is broken.
fn verdict_of(junction: &Junction, certificate: &Certificate) -> Verdict
    requires { IsInRange (group_count junction.now) (certificate_of certificate.now) }
    ensures { IsVerdict junction.now (certificate_of certificate.now) result }
{
    fault_law();
    junction.rules();
    let multiple = match plan_rules(junction, certificate) {
        Ok(multiple) => multiple,
        Err(rule) => return Verdict::Broken(rule, 0, 0),
    };
    if !has_its_trees(junction, certificate) {
        return Verdict::Broken(Rule::Cycles, 0, 0);
    }
    if let Some((rule, cycle, place)) = trees_fault(junction, certificate, multiple) {
        return Verdict::Broken(rule, cycle, place);
    }
    if certificate.claim != Claim::Stopped {
        return Verdict::Proved;
    }
    if certificate.nodes() != u128::from(certificate.budget) {
        return Verdict::Broken(Rule::Budget, 0, 0);
    }
    Verdict::Partial
}

/// The first rule that the certificate breaks, with the cycle in seconds and the place of the node; where none is
/// broken, `Partial` for a stopped search and `Proved` for every other claim. Each of the trees, whose cycles rise by a
/// second from the least one, is judged by the needs of all lanes for the target that the claim asks for.
pub fn check(junction: &Junction, certificate: &Certificate) -> Verdict
    requires { IsInRange (group_count junction.now) (certificate_of certificate.now) }
    ensures verdict { IsVerdict junction.now (certificate_of certificate.now) result }
    ensures proved { (result ≡ Verdict.Proved) ↔
        ProvesClaim junction.now (certificate_of certificate.now) }
    ensures partial { (result ≡ Verdict.Partial) ↔
        (((certificate_of certificate.now).claim ≡ Stopped)
        × BreaksNoRule junction.now (certificate_of certificate.now)) }
    ensures claim { result ≡ Verdict.Proved →
        IsTrueClaim junction.now (certificate_of certificate.now) }
    ensures part { result ≡ Verdict.Partial →
        IsTruePart junction.now (certificate_of certificate.now) }
    ensures names { IsVerdictOn junction.now result }
{
    fault_names_law();
    rules_law();
    proof_law();
    part_law();
    junction.rules();
    verdict_of(junction, certificate)
}
