ghost use Rattle.std.specs.Prelude.{◌≡◌};
ghost use Rattle.least_greens.specs.NeedClosure.{IsQuestion};
ghost use Rattle.least_greens.specs.NeedOf.{need_of};
ghost use Rattle.plan_model.specs.AllLanes.{all_lanes};

use super::{answer_text, searched};
use cycle_orders::Mode::First;
use junction_files::read;
use least_greens::need;
use plan_model::ALL_LANES;
use samples::RING;
use samples::texts::with_cycles;
use sig_base::Target;
use std::cell::Cell;
use std::test::Fail;

/// A search asks the closure of its rule.
#[test]
fn a_rule_that_counts(rt: HostRuntime) -> Result<(), Fail> {
    let alloc = rt.alloc();
    let text = with_cycles(alloc, RING, 30, 60)?;
    let junction = read(alloc, text.as_bytes())?;
    let calls = Cell::new(0u32);
    let (answer, left) = searched(
        &rt,
        alloc,
        &junction,
        |target: Target, cycle: u32, group: usize| -> u32
            requires { IsQuestion junction target cycle group }
            ensures { result ≡ need_of junction all_lanes target cycle group }
        {
            calls.set(calls.get().saturating_add(1));
            need(&junction, ALL_LANES, target, cycle, group)
        },
        (38, First, 3),
    )?;
    let seen = answer_text(alloc, &answer)?;
    assert_eq!(rt;
        (seen.as_str(), left),
        ("closed 2 [0, 1, 2] [0, 2, 1], none", 0)
    );
    assert!(rt; calls.get() > 0);
    Ok(())
}
