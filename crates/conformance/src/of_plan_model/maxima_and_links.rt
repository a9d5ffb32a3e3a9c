use junction_files::read;
use junction_model::Junction;
use plan_model::{FittedPlan, Plan, PlanFault, rotate};
use samples::EARLY_START;
use samples::questions::has_each_group;
use std::process::Abort;
use std::test::Fail;

fn fitted<'j>(
    rt: &impl Abort,
    junction: &'j Junction,
    cycle: u32,
    starts: [u32; 3],
    greens: [u32; 3],
) -> Result<FittedPlan<'j>, PlanFault> {
    let plan = Plan::new(cycle, &starts, &greens).expect(rt, "a plan");
    assert!(rt; has_each_group(junction, &plan));
    FittedPlan::new(junction, plan)
}

/// The cycle, the starts, the greens, and the first fault.
type Row = (u32, [u32; 3], [u32; 3], Option<PlanFault>);

/// The first group has at most 20 seconds of green, and the third one starts 10 seconds after it, round
/// the cycle. A clash is told before either, and a maximum before a link.
const ROWS: [Row; 8] = [
    (34, [0, 22, 10], [17, 7, 7], None),
    (60, [0, 30, 10], [20, 7, 7], None),
    (60, [0, 30, 10], [21, 7, 7], Some(PlanFault::MaxGreen(0))),
    (40, [0, 23, 11], [7, 7, 7], Some(PlanFault::Link(0))),
    (60, [0, 30, 11], [20, 7, 7], Some(PlanFault::Link(0))),
    (60, [0, 30, 11], [21, 7, 7], Some(PlanFault::MaxGreen(0))),
    (
        60,
        [0, 25, 11],
        [21, 7, 7],
        Some(PlanFault::Clash(0, 1, 20)),
    ),
    (60, [55, 25, 5], [20, 7, 7], None),
];

#[test]
fn plans_with_a_maximum_and_a_link(rt: HostRuntime) -> Result<(), Fail> {
    let junction = read(rt.alloc(), EARLY_START.as_bytes())?;
    for (k, (cycle, starts, greens, fault)) in ROWS.iter().enumerate() {
        let found = fitted(&rt, &junction, *cycle, *starts, *greens);
        assert_eq!(rt; found.err(), *fault, "row {k}");
    }
    Ok(())
}

/// All starts come 40 seconds later, round a cycle of 34, and the plan still fits.
#[test]
fn a_rotated_plan_keeps_its_link(rt: HostRuntime) -> Result<(), Fail> {
    let junction = read(rt.alloc(), EARLY_START.as_bytes())?;
    let plan = fitted(&rt, &junction, 34, [0, 22, 10], [17, 7, 7]).expect(&rt, "it fits");
    let rotated = rotate(plan, 40);
    assert_eq!(rt; rotated.plan().starts(), [6, 28, 16].as_slice());
    assert!(rt; fitted(&rt, &junction, 34, [6, 28, 16], [17, 7, 7]).is_ok());
    Ok(())
}
