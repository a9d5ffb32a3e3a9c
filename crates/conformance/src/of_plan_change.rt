ghost use Rattle.std.specs.Prelude.{◌≡◌, ◌<◌, All, IfOk};
ghost use Rattle.plan_model.specs.FittedPlan.{junction_of};
ghost use Rattle.plan_change.specs.Changer.{junction_in, second_in};
ghost use Rattle.plan_change.specs.Planned.{ArePlannedFor};

use aspect_player::{Aspect, PlayFault, Player, write_rows};
use junction_files::read;
use junction_model::Junction;
use plan_change::{ChangeList, Changer, change_safety_law, past_law, settled_law, write_changes};
use plan_model::FittedPlan;
use samples::plans::fitted;
use samples::{EARLY_START, PAIR};
use sig_base::MemorySink;
use std::alloc::Global;
use std::process::Abort;
use std::test::Fail;

/// The list of one change.
fn one_change(alloc: Global, at: u32, plan: &FittedPlan, seconds: u32) -> Result<ChangeList, Fail>
    requires { at < seconds }
    ensures within { IfOk result (λ list. All (λ change. change.at < seconds) list) }
    ensures fit { IfOk result (λ list. ArePlannedFor (junction_of plan.now) list) }
{
    let mut list = ChangeList::new(alloc);
    list.push(at, *plan.plan())?;
    Ok(list)
}

/// A change at a second, so many seconds of which are written, the second from which on the plan is
/// played alone, and lines of the text.
type Case = (u32, u32, u64, &'static [&'static str]);

/// Writes it, and looks at the lines.
fn writes<'j>(
    rt: &impl Abort,
    alloc: Global,
    first: &FittedPlan<'j>,
    plan: &FittedPlan<'j>,
    case: &Case,
) -> Result<(), Fail>
    requires { junction_of plan.now ≡ junction_of first.now }
{
    let (at, seconds, settled, lines) = *case;
    assert!(rt; at < seconds && seconds <= 604800);
    let changes = one_change(alloc, at, plan, seconds)?;
    assert_eq!(rt; changes.items().len(), 1);
    let mut changer = Changer::new(alloc, first);
    let mut sink = MemorySink::new(alloc);
    assert_eq!(rt;
        write_changes(alloc, &mut changer, &changes, seconds, &mut sink),
        Ok(())
    );
    assert_eq!(rt; changer.second(), u64::from(seconds));
    assert_eq!(rt; changer.settled(), settled);
    assert_eq!(rt; changer.requests().len(), 1);
    let text = str::from_utf8(sink.bytes())?;
    for want in lines {
        assert!(rt; text.split('\n').any(|line| line == *want), "{want}");
    }
    Ok(())
}

/// A's green of 0 to 24 runs out whole; 5 seconds later the plan begins anew, at 30, and it is
/// played alone a cycle later. Its B is green from 60 on, and not from 30.
const SAME_PLAN: Case = (
    12,
    90,
    90,
    &[
        "24,green,red",
        "25,amber,red",
        "28,red_amber,red",
        "30,green,red",
        "58,red,red_amber",
        "60,red,green",
    ],
);

/// The other plan begins at 30 too: A is green from 12 seconds later on, and B from 42. A cycle
/// before, B's green would be that of 12 to 33; it is left out.
const OTHER_PLAN: Case = (
    12,
    90,
    90,
    &[
        "30,red,red",
        "40,red_amber,red",
        "42,green,red",
        "72,red,green",
    ],
);

/// At 28 red-amber has announced B's green of 30 to 54, which is shown whole. The plan begins
/// at 60.
const ANNOUNCED: Case = (
    28,
    100,
    120,
    &[
        "28,red,red_amber",
        "30,red,green",
        "54,red,green",
        "60,green,red",
    ],
);

#[test]
fn a_change_of_two_groups(rt: HostRuntime) -> Result<(), Fail> {
    change_safety_law();
    past_law();
    settled_law();
    let alloc = rt.alloc();
    let junction = read(alloc, PAIR.as_bytes())?;
    let first = fitted(&junction, 60, &[0, 30], &[25, 25])?;
    let other = fitted(&junction, 60, &[12, 42], &[20, 22])?;
    writes(&rt, alloc, &first, &first, &SAME_PLAN)?;
    writes(&rt, alloc, &first, &other, &OTHER_PLAN)?;
    writes(&rt, alloc, &first, &first, &ANNOUNCED)
}

/// A is green from 0 to 17, and C, which starts 10 seconds after A, from 10 to 17. At 7 no
/// red-amber has announced C, so its green falls away while A's runs out: the link waits for the
/// plan, which begins at 23 and starts C at 33.
const BEFORE_THE_FOLLOWER: Case = (
    7,
    70,
    63,
    &[
        "8,green,red,red",
        "10,green,red,red",
        "17,green,red,red",
        "18,amber,red,red",
        "21,red_amber,red,red",
        "23,green,red,red",
        "33,green,red,green",
        "41,amber,red,amber",
        "46,red,green,red",
    ],
);

/// A second later it is announced, and runs out whole.
const FOLLOWER_ANNOUNCED: Case = (
    8,
    70,
    63,
    &[
        "8,green,red,red_amber",
        "10,green,red,green",
        "17,green,red,green",
        "18,amber,red,amber",
        "21,red_amber,red,red",
        "23,green,red,red",
        "33,green,red,green",
    ],
);

#[test]
fn a_change_with_a_link_and_a_longest_green(rt: HostRuntime) -> Result<(), Fail> {
    let alloc = rt.alloc();
    let junction = read(alloc, EARLY_START.as_bytes())?;
    let plan = fitted(&junction, 40, &[0, 23, 10], &[18, 12, 8])?;
    writes(&rt, alloc, &plan, &plan, &BEFORE_THE_FOLLOWER)?;
    writes(&rt, alloc, &plan, &plan, &FOLLOWER_ANNOUNCED)
}

/// Without a change the text is that of the plan.
#[test]
fn no_change(rt: HostRuntime) -> Result<(), Fail> {
    let alloc = rt.alloc();
    let junction = read(alloc, PAIR.as_bytes())?;
    let plan = fitted(&junction, 60, &[0, 30], &[25, 25])?;
    let none = ChangeList::new(alloc);
    let mut changer = Changer::new(alloc, &plan);
    let mut sink = MemorySink::new(alloc);
    assert_eq!(rt;
        write_changes(alloc, &mut changer, &none, 40, &mut sink),
        Ok(())
    );
    assert_eq!(rt; changer.settled(), 0);
    let mut player = Player::new(&plan);
    let mut played = MemorySink::new(alloc);
    assert_eq!(rt; write_rows(alloc, &mut player, 40, &mut played), Ok(()));
    assert_eq!(rt; sink.bytes(), played.bytes());
    Ok(())
}

/// The third push, that of second 1, fails after 2 bytes.
#[test]
fn a_push_that_fails(rt: HostRuntime) -> Result<(), Fail> {
    let alloc = rt.alloc();
    let junction = read(alloc, PAIR.as_bytes())?;
    let plan = fitted(&junction, 60, &[0, 30], &[25, 25])?;
    let changes = one_change(alloc, 12, &plan, 40)?;
    let mut changer = Changer::new(alloc, &plan);
    let mut sink = MemorySink::new(alloc);
    sink.fail_at(3, 2)?;
    assert_eq!(rt;
        write_changes(alloc, &mut changer, &changes, 40, &mut sink),
        Err(PlayFault::Sink)
    );
    assert_eq!(rt; changer.second(), 1);
    assert_eq!(rt; changer.requests().len(), 0);
    assert_eq!(rt; sink.bytes(), "second,A,B\n0,green,red\n1,".as_bytes());
    Ok(())
}

const R: Aspect = Aspect::Red;

const Y: Aspect = Aspect::RedAmber;

const G: Aspect = Aspect::Green;

const A: Aspect = Aspect::Amber;

/// Looks at what each group shows.
fn look(rt: &impl Abort, junction: &Junction, changer: &Changer, aspects: &[Aspect])
    requires { junction.now ≡ junction_in changer.now }
{
    junction.rules();
    assert_eq!(rt; aspects.len(), junction.groups().len());
    for group in 0..junction.groups().len() {
        assert_eq!(rt;
            changer.aspect(group),
            aspects[group],
            "second {}",
            changer.second()
        );
    }
}

/// Looks at the row of its second, where it is among these.
fn look_at_row(rt: &impl Abort, junction: &Junction, changer: &Changer, rows: &[(u64, &[Aspect])])
    requires { junction.now ≡ junction_in changer.now }
{
    for (second, aspects) in rows {
        if changer.second() == *second {
            look(rt, junction, changer, aspects);
        }
    }
}

/// Goes on to a second, and looks at the rows of these seconds on the way.
fn goes_on(
    rt: &impl Abort,
    junction: &Junction,
    changer: &mut Changer,
    to: u64,
    rows: &[(u64, &[Aspect])],
)
    requires { junction.now ≡ junction_in changer.old }
    ensures junction { junction_in changer.new ≡ junction_in changer.old }
    ensures second { second_in changer.new ≡ to }
{
    for _second in 0..200 {
        if changer.second() < to {
            look_at_row(rt, junction, changer, rows);
            assert!(rt; changer.second() < 1000);
            changer.tick();
        }
    }
    assert!(rt; changer.second() == to);
}

/// The first plan, asked for at 12 too, takes the place of the other one, of which nothing is
/// shown.
const ONE_SECOND: [(u64, &[Aspect]); 6] = [
    (12, &[G, R]),
    (25, &[A, R]),
    (28, &[Y, R]),
    (30, &[G, R]),
    (42, &[G, R]),
    (60, &[R, G]),
];

#[test]
fn two_requests_in_one_second(rt: HostRuntime) -> Result<(), Fail> {
    let alloc = rt.alloc();
    let junction = read(alloc, PAIR.as_bytes())?;
    let first = fitted(&junction, 60, &[0, 30], &[25, 25])?;
    let other = fitted(&junction, 60, &[12, 42], &[20, 22])?;
    let mut changer = Changer::new(alloc, &first);
    goes_on(&rt, &junction, &mut changer, 12, &[]);
    look(&rt, &junction, &changer, &[G, R]);
    changer.change(&other)?;
    look(&rt, &junction, &changer, &[G, R]);
    changer.change(&first)?;
    assert_eq!(rt; changer.settled(), 90);
    assert_eq!(rt; changer.requests().len(), 2);
    goes_on(&rt, &junction, &mut changer, 100, &ONE_SECOND);
    Ok(())
}

/// The first request's plan would begin at 30. At 26, in the gap, A shows amber and nothing is
/// announced: the other plan begins 5 seconds after 27, and A is green 12 seconds later.
const IN_THE_GAP: [(u64, &[Aspect]); 9] = [
    (24, &[G, R]),
    (26, &[A, R]),
    (27, &[A, R]),
    (28, &[R, R]),
    (30, &[R, R]),
    (42, &[Y, R]),
    (44, &[G, R]),
    (64, &[A, R]),
    (74, &[R, G]),
];

#[test]
fn a_request_in_an_earlier_gap(rt: HostRuntime) -> Result<(), Fail> {
    let alloc = rt.alloc();
    let junction = read(alloc, PAIR.as_bytes())?;
    let first = fitted(&junction, 60, &[0, 30], &[25, 25])?;
    let other = fitted(&junction, 60, &[12, 42], &[20, 22])?;
    let mut changer = Changer::new(alloc, &first);
    goes_on(&rt, &junction, &mut changer, 12, &IN_THE_GAP);
    changer.change(&first)?;
    goes_on(&rt, &junction, &mut changer, 26, &IN_THE_GAP);
    changer.change(&other)?;
    assert_eq!(rt; changer.settled(), 92);
    goes_on(&rt, &junction, &mut changer, 110, &IN_THE_GAP);
    Ok(())
}
