ghost use Rattle.std.specs.Prelude.{◌≡◌, ◌++◌, ◌<◌, OnOk, IfOk, Some, length, slice_get};
ghost use Rattle.plan_certificate.specs.Certificate.{certificate_of};
ghost use Rattle.plan_model.specs.FirstFault.{NamesPartsOf};
ghost use Rattle.certificate_checker.specs.Verdict.{IsOfRule, IsVerdictOn};
ghost use Rattle.report_text.specs.Verdict.{name_of, link_words, fault_words, node_words, where_words, rule_words, verdict_line};

use certificate_checker::{Rule, Verdict};
use conflict_matrix::Link;
use junction_model::Junction;
use plan_certificate::Certificate;
use plan_model::PlanFault;
use sig_base::{NoMemory, put, put_bytes, put_number};
use std::alloc::Global;

fn put_name(text: &mut Vec<u8>, junction: &Junction, group: u32) -> Result<(), NoMemory>
    requires { group < length junction.now.groups }
    ensures { OnOk result (text.new.items ≡ text.old.items ++ name_of junction.now group) }
{
    put_bytes(text, junction.groups()[group as usize].label.bytes())
}

/// The words, and the name of the group.
fn put_named(
    text: &mut Vec<u8>,
    words: &str,
    junction: &Junction,
    group: u32,
) -> Result<(), NoMemory>
    requires { group < length junction.now.groups }
    ensures { OnOk result
        (text.new.items ≡ text.old.items ++ (words.now ++ name_of junction.now group)) }
{
    put(text, words)?;
    put_name(text, junction, group)
}

fn put_clash(
    text: &mut Vec<u8>,
    junction: &Junction,
    first: u32,
    second: u32,
    time: u32,
) -> Result<(), NoMemory>
    requires { NamesPartsOf junction.now (PlanFault.Clash first second time) }
    ensures { OnOk result (text.new.items ≡ text.old.items
        ++ fault_words junction.now (PlanFault.Clash first second time)) }
{
    put_named(text, "clash ", junction, first)?;
    put_named(text, " ", junction, second)?;
    put(text, " second ")?;
    put_number(text, time)
}

/// The link of this number. Its leader and its follower are groups of the junction.
fn link_at(junction: &Junction, number: u32) -> Link
    requires { number < length junction.now.conflicts.links }
    ensures value { slice_get junction.now.conflicts.links number ≡ Some result }
    ensures leader { result.leader < length junction.now.groups }
    ensures follower { result.follower < length junction.now.groups }
{
    junction.rules();
    junction.conflicts().links()[number as usize]
}

/// The names of the leader and the follower of a link.
fn put_link(text: &mut Vec<u8>, junction: &Junction, number: u32) -> Result<(), NoMemory>
    requires { number < length junction.now.conflicts.links }
    ensures { OnOk result (text.new.items ≡ text.old.items ++ link_words junction.now number) }
{
    let link = link_at(junction, number);
    put_named(text, "link ", junction, link.leader)?;
    put_named(text, " ", junction, link.follower)
}

fn put_fault(text: &mut Vec<u8>, junction: &Junction, fault: PlanFault) -> Result<(), NoMemory>
    requires { NamesPartsOf junction.now fault }
    ensures { OnOk result (text.new.items ≡ text.old.items ++ fault_words junction.now fault) }
{
    match fault {
        PlanFault::CycleLimit => put(text, "cycle_limit"),
        PlanFault::StartRange(group) => put_named(text, "start_range ", junction, group),
        PlanFault::MinGreen(group) => put_named(text, "min_green ", junction, group),
        PlanFault::Clash(first, second, time) => put_clash(text, junction, first, second, time),
        PlanFault::MaxGreen(group) => put_named(text, "max_green ", junction, group),
        PlanFault::Link(link) => put_link(text, junction, link),
    }
}

fn put_node(text: &mut Vec<u8>, cycle: u32, node: u64) -> Result<(), NoMemory>
    ensures { OnOk result (text.new.items ≡ text.old.items ++ node_words cycle node) }
{
    put(text, " cycle ")?;
    put_number(text, cycle)?;
    put(text, " node ")?;
    put_number(text, node)
}

/// Where the rule is broken.
fn put_where(
    text: &mut Vec<u8>,
    junction: &Junction,
    rule: Rule,
    cycle: u32,
    node: u64,
) -> Result<(), NoMemory>
    requires { IsOfRule junction.now rule }
    ensures { OnOk result
        (text.new.items ≡ text.old.items ++ where_words junction.now rule cycle node) }
{
    match rule {
        Rule::Plan | Rule::Least | Rule::Cycles | Rule::Budget => Ok(()),
        Rule::Fit(fault) => {
            put(text, " ")?;
            put_fault(text, junction, fault)
        }
        Rule::Tree | Rule::Pair | Rule::Unvisited | Rule::Edge | Rule::Sum => {
            put_node(text, cycle, node)
        }
    }
}

fn put_rule(text: &mut Vec<u8>, rule: Rule) -> Result<(), NoMemory>
    ensures { OnOk result (text.new.items ≡ text.old.items ++ rule_words rule) }
{
    put_number(text, rule.number())?;
    put(text, " ")?;
    put(text, rule.word())
}

/// The line that a check prints: `proved` and the claim, `partial stopped`, or `refuted` with the first broken rule and
/// where it is broken.
pub fn verdict_text(
    alloc: Global,
    junction: &Junction,
    certificate: &Certificate,
    verdict: &Verdict,
) -> Result<Vec<u8>, NoMemory>
    requires { IsVerdictOn junction.now verdict.now }
    ensures { IfOk result (λ text. text.items
        ≡ verdict_line junction.now (certificate_of certificate.now).claim verdict.now) }
{
    let mut text = Vec::new(alloc);
    match *verdict {
        Verdict::Proved => {
            put(&mut text, "proved ")?;
            put(&mut text, certificate.claim.word())?;
        }
        Verdict::Partial => put(&mut text, "partial stopped")?,
        Verdict::Broken(rule, cycle, node) => {
            put(&mut text, "refuted ")?;
            put_rule(&mut text, rule)?;
            put_where(&mut text, junction, rule, cycle, node)?;
        }
    }
    put(&mut text, "\n")?;
    Ok(text)
}
