use aspect_player::{Aspect, PlayFault, Player, push_header, push_row, safety_law, write_rows};
use junction_files::read;
use plan_model::FittedPlan;
use samples::plans::fitted;
use samples::{PAIR, RING};
use sig_base::MemorySink;
use std::process::Abort;
use std::test::Fail;

const R: Aspect = Aspect::Red;

const Y: Aspect = Aspect::RedAmber;

const G: Aspect = Aspect::Green;

const A: Aspect = Aspect::Amber;

/// Looks at what each group shows.
fn look(rt: &impl Abort, player: &Player, aspects: &[Aspect]) {
    player.plan().junction().rules();
    let groups = player.plan().junction().groups().len();
    assert_eq!(rt; aspects.len(), groups);
    for group in 0..groups {
        assert_eq!(rt;
            player.aspect(group),
            aspects[group],
            "second {}",
            player.second()
        );
    }
}

/// Goes on second by second, and looks at the rows of these seconds.
fn plays(rt: &impl Abort, plan: &FittedPlan, rows: &[(u64, &[Aspect])]) {
    let mut player = Player::new(plan);
    for _second in 0..200 {
        for (second, aspects) in rows {
            if player.second() == *second {
                look(rt, &player, aspects);
            }
        }
        assert!(rt; player.second() < 1000);
        player.tick();
    }
}

/// Cycle 39, greens of 10 from 0, 13 and 26 on, ambers and red-ambers of 2 seconds. The last group's
/// green ends at 36, and its amber at 38, when the first group's red-amber is half over.
const RING_ROWS: [(u64, &[Aspect]); 11] = [
    (0, &[G, R, R]),
    (9, &[G, R, R]),
    (10, &[A, R, R]),
    (11, &[A, Y, R]),
    (13, &[R, G, R]),
    (36, &[R, R, A]),
    (37, &[Y, R, A]),
    (38, &[Y, R, R]),
    (39, &[G, R, R]),
    (50, &[A, Y, R]),
    (117, &[G, R, R]),
];

#[test]
fn rows_of_three_groups(rt: HostRuntime) -> Result<(), Fail> {
    safety_law();
    let junction = read(rt.alloc(), RING.as_bytes())?;
    let plan = fitted(&junction, 39, &[0, 13, 26], &[10, 10, 10])?;
    plays(&rt, &plan, &RING_ROWS);
    Ok(())
}

/// Cycle 60. A is green from 40 to 4, past the cycle's end, and B from 10 to 34; then come 3 seconds of
/// amber, and before it 2 of red-amber.
const GREEN_WRAPS: [(u64, &[Aspect]); 12] = [
    (0, &[G, R]),
    (4, &[G, R]),
    (5, &[A, R]),
    (7, &[A, R]),
    (8, &[R, Y]),
    (10, &[R, G]),
    (34, &[R, G]),
    (35, &[R, A]),
    (38, &[Y, R]),
    (59, &[G, R]),
    (60, &[G, R]),
    (65, &[A, R]),
];

/// A's green ends with second 58, so its amber goes on to second 1; B's red-amber is at 2 and 3.
const AMBER_WRAPS: [(u64, &[Aspect]); 7] = [
    (0, &[A, R]),
    (1, &[A, R]),
    (2, &[R, Y]),
    (4, &[R, G]),
    (58, &[G, R]),
    (59, &[A, R]),
    (60, &[A, R]),
];

#[test]
fn rows_past_the_end_of_the_cycle(rt: HostRuntime) -> Result<(), Fail> {
    let junction = read(rt.alloc(), PAIR.as_bytes())?;
    let green = fitted(&junction, 60, &[40, 10], &[25, 25])?;
    plays(&rt, &green, &GREEN_WRAPS);
    let amber = fitted(&junction, 60, &[34, 4], &[25, 25])?;
    plays(&rt, &amber, &AMBER_WRAPS);
    Ok(())
}

/// The line with this number of a text, from 0 on.
fn line_at(text: &str, number: usize) -> Option<&str> {
    text.split('\n').nth(number)
}

/// The lines of a text of the ring's 40 seconds: the header, and the seconds 0, 11, 38 and 39.
const RING_LINES: [(usize, &str); 6] = [
    (0, "second,A,B,C"),
    (1, "0,green,red,red"),
    (12, "11,amber,red_amber,red"),
    (39, "38,red_amber,red,red"),
    (40, "39,green,red,red"),
    (41, ""),
];

#[test]
fn texts(rt: HostRuntime) -> Result<(), Fail> {
    let alloc = rt.alloc();
    let junction = read(alloc, RING.as_bytes())?;
    let plan = fitted(&junction, 39, &[0, 13, 26], &[10, 10, 10])?;
    let mut sink = MemorySink::new(alloc);
    let mut player = Player::new(&plan);
    assert_eq!(rt; write_rows(alloc, &mut player, 40, &mut sink), Ok(()));
    assert_eq!(rt; player.second(), 40);
    let text = str::from_utf8(sink.bytes())?;
    for (number, want) in RING_LINES {
        assert_eq!(rt; line_at(text, number), Some(want));
    }
    assert_eq!(rt; line_at(text, 42), None);
    Ok(())
}

#[test]
fn no_seconds_are_the_header_alone(rt: HostRuntime) -> Result<(), Fail> {
    let alloc = rt.alloc();
    let junction = read(alloc, RING.as_bytes())?;
    let plan = fitted(&junction, 39, &[0, 13, 26], &[10, 10, 10])?;
    let mut sink = MemorySink::new(alloc);
    let mut player = Player::new(&plan);
    assert_eq!(rt; write_rows(alloc, &mut player, 0, &mut sink), Ok(()));
    assert_eq!(rt; sink.bytes(), "second,A,B,C\n".as_bytes());
    Ok(())
}

/// The third push, that of second 1, fails after 2 bytes.
#[test]
fn a_push_that_fails(rt: HostRuntime) -> Result<(), Fail> {
    let alloc = rt.alloc();
    let junction = read(alloc, RING.as_bytes())?;
    let plan = fitted(&junction, 39, &[0, 13, 26], &[10, 10, 10])?;
    let mut sink = MemorySink::new(alloc);
    sink.fail_at(3, 2)?;
    let mut player = Player::new(&plan);
    assert_eq!(rt;
        write_rows(alloc, &mut player, 40, &mut sink),
        Err(PlayFault::Sink)
    );
    assert_eq!(rt; player.second(), 1);
    assert_eq!(rt;
        sink.bytes(),
        "second,A,B,C\n0,green,red,red\n1,".as_bytes()
    );
    Ok(())
}

#[test]
fn lines(rt: HostRuntime) -> Result<(), Fail> {
    let alloc = rt.alloc();
    let junction = read(alloc, PAIR.as_bytes())?;
    let mut sink = MemorySink::new(alloc);
    assert_eq!(rt; push_header(alloc, &junction, &mut sink), Ok(()));
    assert_eq!(rt; push_row(alloc, u64::MAX, &[R, Y, G, A], &mut sink), Ok(()));
    let want = "second,A,B\n18446744073709551615,red,red_amber,green,amber\n";
    assert_eq!(rt; sink.bytes(), want.as_bytes());
    Ok(())
}
