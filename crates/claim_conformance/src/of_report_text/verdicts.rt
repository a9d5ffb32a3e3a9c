ghost use Rattle.std.specs.Prelude.{◌<◌, IsTrue, length};
ghost use Rattle.plan_model.specs.FirstFault.{NamesPartsOf};
ghost use Rattle.certificate_checker.specs.Verdict.{IsVerdictOn};

use super::certificate_of;
use super::plans::{BEGUN, EVEN};
use certificate_checker::{Rule, Verdict};
use junction_files::read;
use junction_model::Junction;
use plan_certificate::CertificateFault;
use plan_model::PlanFault;
use report_text::{Refusal, refusal_text, verdict_text};
use samples::{EARLY_START, PAIR, RING};
use std::test::Fail;

fn has_group(junction: &Junction, group: u32) -> bool
    ensures { IsTrue result → group < length junction.now.groups }
{
    (group as usize) < junction.groups().len()
}

/// Whether each group and link that the fault names is one of the junction's.
fn names_parts_of(junction: &Junction, fault: PlanFault) -> bool
    ensures { IsTrue result → NamesPartsOf junction.now fault }
{
    match fault {
        PlanFault::CycleLimit => true,
        PlanFault::StartRange(group) | PlanFault::MinGreen(group) | PlanFault::MaxGreen(group) => {
            has_group(junction, group)
        }
        PlanFault::Clash(first, second, _) => {
            has_group(junction, first) && has_group(junction, second)
        }
        PlanFault::Link(link) => (link as usize) < junction.conflicts().links().len(),
    }
}

/// Whether the verdict names groups and links of the junction only.
fn is_verdict_on(junction: &Junction, verdict: &Verdict) -> bool
    ensures { IsTrue result → IsVerdictOn junction.now verdict.now }
{
    match *verdict {
        Verdict::Broken(Rule::Fit(fault), _, _) => names_parts_of(junction, fault),
        _ => true,
    }
}

const ON_PAIR: [(Verdict, &str); 5] = [
    (Verdict::Proved, "proved capacity\n"),
    (
        Verdict::Broken(Rule::Fit(PlanFault::CycleLimit), 0, 0),
        "refuted 2 fit cycle_limit\n",
    ),
    (
        Verdict::Broken(Rule::Fit(PlanFault::StartRange(1)), 0, 0),
        "refuted 2 fit start_range B\n",
    ),
    (
        Verdict::Broken(Rule::Fit(PlanFault::MaxGreen(0)), 0, 0),
        "refuted 2 fit max_green A\n",
    ),
    (
        Verdict::Broken(Rule::Fit(PlanFault::Clash(0, 1, 1)), 0, 0),
        "refuted 2 fit clash A B second 1\n",
    ),
];

const ON_RING: [(Verdict, &str); 11] = [
    (Verdict::Partial, "partial stopped\n"),
    (Verdict::Broken(Rule::Plan, 0, 0), "refuted 1 plan\n"),
    (
        Verdict::Broken(Rule::Fit(PlanFault::MinGreen(2)), 0, 0),
        "refuted 2 fit min_green C\n",
    ),
    (Verdict::Broken(Rule::Least, 0, 0), "refuted 3 least\n"),
    (Verdict::Broken(Rule::Cycles, 0, 0), "refuted 4 cycles\n"),
    (
        Verdict::Broken(Rule::Tree, 38, 2),
        "refuted 5 tree cycle 38 node 2\n",
    ),
    (
        Verdict::Broken(Rule::Pair, 38, 0),
        "refuted 6 pair cycle 38 node 0\n",
    ),
    (
        Verdict::Broken(Rule::Unvisited, 300, 12),
        "refuted 7 unvisited cycle 300 node 12\n",
    ),
    (
        Verdict::Broken(Rule::Edge, 38, 0),
        "refuted 8 edge cycle 38 node 0\n",
    ),
    (
        Verdict::Broken(Rule::Sum, 39, 1),
        "refuted 9 sum cycle 39 node 1\n",
    ),
    (Verdict::Broken(Rule::Budget, 0, 0), "refuted 10 budget\n"),
];

#[test]
fn lines_of_verdicts(rt: HostRuntime) -> Result<(), Fail> {
    let pair = read(rt.alloc(), PAIR.as_bytes())?;
    let even = certificate_of(&rt, rt.alloc(), &pair, EVEN);
    for (verdict, want) in &ON_PAIR {
        assert!(rt; is_verdict_on(&pair, verdict));
        let line = verdict_text(rt.alloc(), &pair, &even, verdict)?;
        assert_eq!(rt; line.as_slice(), want.as_bytes());
    }
    let early = read(rt.alloc(), EARLY_START.as_bytes())?;
    let late = Verdict::Broken(Rule::Fit(PlanFault::Link(0)), 0, 0);
    assert!(rt; is_verdict_on(&early, &late));
    let line = verdict_text(rt.alloc(), &early, &even, &late)?;
    assert_eq!(rt; line.as_slice(), b"refuted 2 fit link A C\n".as_slice());
    let ring = read(rt.alloc(), RING.as_bytes())?;
    let begun = certificate_of(&rt, rt.alloc(), &ring, BEGUN);
    for (verdict, want) in &ON_RING {
        assert!(rt; is_verdict_on(&ring, verdict));
        let line = verdict_text(rt.alloc(), &ring, &begun, verdict)?;
        assert_eq!(rt; line.as_slice(), want.as_bytes());
    }
    Ok(())
}

const REFUSALS: [(Refusal, &str); 6] = [
    (Refusal::BadWords, "bad words\n"),
    (
        Refusal::BadCertificate(CertificateFault::NotJson),
        "bad certificate 1 not_json\n",
    ),
    (
        Refusal::BadCertificate(CertificateFault::Shape),
        "bad certificate 2 shape\n",
    ),
    (
        Refusal::BadCertificate(CertificateFault::Range),
        "bad certificate 3 range\n",
    ),
    (Refusal::ShelfFailed, "shelf failed\n"),
    (Refusal::TooLong, "too long\n"),
];

#[test]
fn lines_of_refusals(rt: HostRuntime) -> Result<(), Fail> {
    for (refusal, want) in REFUSALS {
        let line = refusal_text(rt.alloc(), refusal)?;
        assert_eq!(rt; line.as_slice(), want.as_bytes());
    }
    Ok(())
}
