//! Lines of reports, and how certificates begin and end. The plans were found by hand.
use super::changes::{
    BOUNDED, CLOSE, Changes, OF_24_TO_60, OF_39_TO_60, OF_60, QUICK, SATURATED, SECOND_VERSION,
    UNBOUNDED, with_changes,
};
use super::{check_verdict, run_words, shelf_of};
use junction_program::Status;
use samples::crowd::crowd;
use samples::{CROSSROADS, EARLY_START, PAIR, RING};
use sig_base::{MemoryShelf, MemorySink};
use std::alloc::Global;
use std::process::Abort;
use std::test::Fail;

/// The words of a design, the file and its changes; the status, lines of the report that follow one another, how the
/// certificate begins and ends, and the line of its check.
#[derive(Clone, Copy)]
struct Outline<'a> {
    words: &'a str,
    file: &'a str,
    changes: Changes<'a>,
    status: Status,
    lines: &'a str,
    begins: &'a str,
    ends: &'a str,
    verdict: &'a str,
}

fn check_certificate(
    rt: &impl Abort,
    shelf: &MemoryShelf,
    begins: &str,
    ends: &str,
) -> Result<(), Fail> {
    let certificate = str::from_utf8(shelf.held("C").ok_or("no certificate was put")?)?;
    assert!(rt; certificate.starts_with(begins), "{certificate}");
    assert!(rt; certificate.ends_with(ends), "{certificate}");
    Ok(())
}

fn check_outline(rt: &impl Abort, alloc: Global, outline: &Outline) -> Result<(), Fail> {
    let file = with_changes(alloc, outline.file, outline.changes)?;
    let mut shelf = shelf_of(alloc, file.as_str(), "")?;
    let mut sink = MemorySink::new(alloc);
    let status = run_words(alloc, outline.words, &mut shelf, &mut sink)?;
    let report = str::from_utf8(sink.bytes())?;
    assert_eq!(rt; status, outline.status, "{report}");
    assert!(rt; report.contains(outline.lines), "{report}");
    check_certificate(rt, &shelf, outline.begins, outline.ends)?;
    check_verdict(rt, alloc, &mut shelf, outline.verdict)
}

fn check_outlines(rt: &impl Abort, alloc: Global, outlines: &[Outline]) -> Result<(), Fail> {
    for outline in outlines {
        check_outline(rt, alloc, outline)?;
    }
    Ok(())
}

/// Greens of 33 and 17 serve 297/200 and 306/200 times the arrivals, and with the intergreens fill 60 seconds. Without
/// losses, half of the cycle serves 9/5 times the arrivals at 20 seconds and at 22. Four tenths of 20 seconds serve the
/// arrivals of a saturated group, and two greens of 9 with their intergreens don't fit into 21.
const OF_PAIRS: [Outline<'static>; 6] = [
    Outline {
        words: "capacity|J|C",
        file: PAIR,
        changes: &[("= 450", "= 600"), ("= 450", "= 300")],
        status: Status::Done,
        lines: "nodes 1\ncycle 60\nmultiplier 297/200\nreserve 97/2 per cent\ngroup A start 0 green 33\ngroup B start 38 green 17\n",
        begins: "{\"branches\":[[[0,1]]],\"budget\":200000,",
        ends: ",\"claim\":\"capacity\",\"least\":[1,1],\"plan\":{\"cycle\":60,\"greens\":[33,17],\"starts\":[0,38]},\"version\":1}",
        verdict: "proved capacity\n",
    },
    Outline {
        words: "capacity|J|C",
        file: PAIR,
        changes: &[
            (OF_60, "least_cycle = 20\ngreatest_cycle = 22"),
            QUICK,
            QUICK,
            ("amber = 2\nred_amber = 2", "amber = 0\nred_amber = 0"),
            ("amber = 2\nred_amber = 2", "amber = 0\nred_amber = 0"),
            ("a_to_b = 5\nb_to_a = 5", "a_to_b = 0\nb_to_a = 0"),
        ],
        status: Status::Done,
        lines: "nodes 3\ncycle 20\nmultiplier 9/5\nreserve 80/1 per cent\ngroup A start 0 green 10\ngroup B start 10 green 10\n",
        begins: "{\"branches\":[[[0,1]],[[0,1]],[[0,1]]],\"budget\":200000,",
        ends: ",\"claim\":\"capacity\",\"least\":[1,1],\"plan\":{\"cycle\":20,\"greens\":[10,10],\"starts\":[0,10]},\"version\":1}",
        verdict: "proved capacity\n",
    },
    Outline {
        words: "cycle|J|C",
        file: PAIR,
        changes: &[
            (OF_60, "least_cycle = 10\ngreatest_cycle = 60"),
            QUICK,
            QUICK,
            SATURATED,
            SATURATED,
            CLOSE,
        ],
        status: Status::Done,
        lines: "nodes 10\ncycle 20\nmultiplier 1/1\nreserve 0/1 per cent\ngroup A start 0 green 8\ngroup B start 10 green 8\nlane A1 saturation 1/1 delay over\nlane B1 saturation 1/1 delay over\n",
        begins: "{\"branches\":[[[0,1]],[[0,1]],[[0,1]],[[0,1]],[[0,1]],[[0,1]],[[0,1]],[[0,1]],[[0,1]],[[0,1]]],\"budget\":200000,",
        ends: ",\"claim\":\"cycle\",\"least\":[1,1],\"plan\":{\"cycle\":20,\"greens\":[8,8],\"starts\":[0,10]},\"version\":1}",
        verdict: "proved cycle\n",
    },
    Outline {
        words: "cycle|J|C",
        file: PAIR,
        changes: &[
            (OF_60, "least_cycle = 21\ngreatest_cycle = 21"),
            QUICK,
            QUICK,
            SATURATED,
            SATURATED,
            CLOSE,
        ],
        status: Status::Infeasible,
        lines: "claim infeasible\nleast 1/1\nnodes 1\n",
        begins: "{\"branches\":[[[0,1]]],\"budget\":200000,",
        ends: ",\"claim\":\"infeasible\",\"least\":[1,1],\"plan\":null,\"version\":1}",
        verdict: "proved infeasible\n",
    },
    Outline {
        words: "capacity|J|C|--least|3/2",
        file: PAIR,
        changes: &[],
        status: Status::Done,
        lines: "claim capacity\nleast 3/2\nnodes 1\ncycle 60\nmultiplier 3/2\n",
        begins: "{\"branches\":[[[0,1]]],\"budget\":200000,",
        ends: ",\"claim\":\"capacity\",\"least\":[3,2],\"plan\":{\"cycle\":60,\"greens\":[25,25],\"starts\":[0,30]},\"version\":1}",
        verdict: "proved capacity\n",
    },
    Outline {
        words: "capacity|J|C|--least|0/1",
        file: PAIR,
        changes: &[],
        status: Status::Done,
        lines: "claim capacity\nleast 0/1\nnodes 1\ncycle 60\nmultiplier 3/2\n",
        begins: "{\"branches\":[[[0,1]]],\"budget\":200000,",
        ends: ",\"claim\":\"capacity\",\"least\":[0,1],\"plan\":{\"cycle\":60,\"greens\":[25,25],\"starts\":[0,30]},\"version\":1}",
        verdict: "proved capacity\n",
    },
];

#[test]
fn pairs(rt: HostRuntime) -> Result<(), Fail> {
    check_outlines(&rt, rt.alloc(), &OF_PAIRS)
}

/// Nine trees: one node at cycle 30, where the sum of a walk of two groups is 1, and three at each other cycle. With two
/// busy groups, greens of 20 at 59 seconds; to reach that at 34, greens of 12 take 12 + 3 + 12 + 8 there and back.
const OF_RINGS: [Outline<'static>; 3] = [
    Outline {
        words: "cycle|J|C",
        file: RING,
        changes: &[],
        status: Status::Done,
        lines: "nodes 0\ncycle 39\nmultiplier 54/13\n",
        begins: "{\"branches\":[],\"budget\":200000,",
        ends: ",\"claim\":\"cycle\",\"least\":[1,1],\"plan\":{\"cycle\":39,\"greens\":[10,10,10],\"starts\":[0,13,26]},\"version\":1}",
        verdict: "proved cycle\n",
    },
    Outline {
        words: "cycle|J|C",
        file: RING,
        changes: &[(OF_39_TO_60, "least_cycle = 30\ngreatest_cycle = 38")],
        status: Status::Infeasible,
        lines: "junction ring\nclaim infeasible\nleast 1/1\nnodes 25\n",
        begins: "{\"branches\":[[[0,",
        ends: "]],[2,[0,1,2],[0,2,1]],[2,[0,1,2],[0,2,1]],[2,[0,1,2],[0,2,1]],[2,[0,1,2],[0,2,1]],[2,[0,1,2],[0,2,1]],[2,[0,1,2],[0,2,1]],[2,[0,1,2],[0,2,1]],[2,[0,1,2],[0,2,1]]],\"budget\":200000,\"claim\":\"infeasible\",\"least\":[1,1],\"plan\":null,\"version\":1}",
        verdict: "proved infeasible\n",
    },
    Outline {
        words: "capacity|J|C|--least|0/1",
        file: RING,
        changes: &[
            (OF_39_TO_60, "least_cycle = 34\ngreatest_cycle = 59"),
            ("= 100", "= 400"),
            ("= 100", "= 400"),
            ("= 100", "= 10"),
        ],
        status: Status::Done,
        lines: "cycle 59\nmultiplier 81/59\nreserve 2200/59 per cent\ngroup A start 0 green 20\ngroup B start 23 green 20\ngroup C start 46 green 10\n",
        begins: "{\"branches\":[[[0,1]],",
        ends: ",\"claim\":\"capacity\",\"least\":[0,1],\"plan\":{\"cycle\":59,\"greens\":[20,20,10],\"starts\":[0,23,46]},\"version\":1}",
        verdict: "proved capacity\n",
    },
];

#[test]
fn rings(rt: HostRuntime) -> Result<(), Fail> {
    check_outlines(&rt, rt.alloc(), &OF_RINGS)
}

/// A third group like B, in conflict with it, which may be green for 16 seconds.
const THIRD: (&str, &str) = (
    "b_to_a = 5\n",
    "b_to_a = 5\n[[group]]\nname = \"C\"\nmin_green = 7\namber = 3\nred_amber = 2\nstart_lost = 0\nend_gain = 0\nmax_green = 16\n[[lane]]\nname = \"C1\"\ngroup = \"C\"\narrival = 450\nsaturation = 1800\n[[conflict]]\na = \"B\"\nb = \"C\"\na_to_b = 5\nb_to_a = 5\n",
);

/// A green of 20 serves 6/5 times the arrivals of A, and B is stretched to 60 - 20 - 5 - 5. Each group needs 17 seconds:
/// one that may have 16 closes the root order by itself.
const OF_LONGEST_GREENS: [Outline<'static>; 3] = [
    Outline {
        words: "capacity|J|C",
        file: PAIR,
        changes: BOUNDED,
        status: Status::Done,
        lines: "nodes 1\ncycle 60\nmultiplier 6/5\nreserve 20/1 per cent\ngroup A start 0 green 20\ngroup B start 25 green 30\n",
        begins: "{\"branches\":[[[0]]],\"budget\":200000,",
        ends: ",\"claim\":\"capacity\",\"least\":[1,1],\"plan\":{\"cycle\":60,\"greens\":[20,30],\"starts\":[0,25]},\"version\":2}",
        verdict: "proved capacity\n",
    },
    Outline {
        words: "cycle|J|C",
        file: PAIR,
        changes: &[
            SECOND_VERSION,
            (
                "end_gain = 0\n\n[[group]]",
                "end_gain = 0\nmax_green = 16\n\n[[group]]",
            ),
            (
                "end_gain = 0\n\n[[lane]]",
                "end_gain = 0\nmax_green = 16\n\n[[lane]]",
            ),
        ],
        status: Status::Infeasible,
        lines: "junction pair\nclaim infeasible\nleast 1/1\nnodes 1\n",
        begins: "{\"branches\":[[[0]]],\"budget\":200000,",
        ends: ",\"claim\":\"infeasible\",\"least\":[1,1],\"plan\":null,\"version\":2}",
        verdict: "proved infeasible\n",
    },
    Outline {
        words: "cycle|J|C",
        file: PAIR,
        changes: &[SECOND_VERSION, THIRD],
        status: Status::Infeasible,
        lines: "junction pair\nclaim infeasible\nleast 1/1\nnodes 1\n",
        begins: "{\"branches\":[[[2]]],\"budget\":200000,",
        ends: ",\"claim\":\"infeasible\",\"least\":[1,1],\"plan\":null,\"version\":2}",
        verdict: "proved infeasible\n",
    },
];

#[test]
fn longest_greens(rt: HostRuntime) -> Result<(), Fail> {
    check_outlines(&rt, rt.alloc(), &OF_LONGEST_GREENS)
}

/// With a link from A to C three waits of 10, 12 and 12 fill a cycle of 34, and A is stretched to 22 - 5. Where C starts
/// with A, two waits of 12 fill one of 24.
const OF_LINKS: [Outline<'static>; 2] = [
    Outline {
        words: "cycle|J|C",
        file: EARLY_START,
        changes: &[UNBOUNDED],
        status: Status::Done,
        lines: "cycle 34\nmultiplier 567/170\nreserve 3970/17 per cent\ngroup A start 0 green 17\ngroup B start 22 green 7\ngroup C start 10 green 7\n",
        begins: "{\"branches\":[[",
        ends: "]],\"budget\":200000,\"claim\":\"cycle\",\"least\":[1,1],\"plan\":{\"cycle\":34,\"greens\":[17,7,7],\"starts\":[0,22,10]},\"version\":1}",
        verdict: "proved cycle\n",
    },
    Outline {
        words: "cycle|J|C",
        file: EARLY_START,
        changes: &[
            UNBOUNDED,
            (
                "\n[[link]]\nleader = \"A\"\nfollower = \"C\"\nafter = 10\n",
                "",
            ),
        ],
        status: Status::Done,
        lines: "nodes 0\ncycle 24\nmultiplier 189/40\nreserve 745/2 per cent\ngroup A start 0 green 7\ngroup B start 12 green 7\ngroup C start 0 green 7\n",
        begins: "{\"branches\":[],\"budget\":200000,",
        ends: ",\"claim\":\"cycle\",\"least\":[1,1],\"plan\":{\"cycle\":24,\"greens\":[7,7,7],\"starts\":[0,12,0]},\"version\":1}",
        verdict: "proved cycle\n",
    },
];

#[test]
fn start_links(rt: HostRuntime) -> Result<(), Fail> {
    check_outlines(&rt, rt.alloc(), &OF_LINKS)
}

/// The checker's yes says of the plan that none is better, and looks for a tree of each of 81 cycles.
#[test]
fn a_crossroads(rt: HostRuntime) -> Result<(), Fail> {
    let outline = Outline {
        words: "capacity|J|C",
        file: CROSSROADS,
        changes: &[],
        status: Status::Done,
        lines: "junction crossroads\nclaim capacity\nleast 1/1\n",
        begins: "{\"branches\":[[",
        ends: "]},\"version\":1}",
        verdict: "proved capacity\n",
    };
    check_outline(&rt, rt.alloc(), &outline)
}

/// Five of the sixteen groups one after another take 310 seconds of 300. The tree that shows it has 55 nodes, of which a
/// budget of 54 leaves the last one.
#[test]
fn sixteen_groups(rt: HostRuntime) -> Result<(), Fail> {
    let file = crowd(rt.alloc())?;
    let whole = Outline {
        words: "capacity|J|C|--budget|55",
        file: file.as_str(),
        changes: &[],
        status: Status::Infeasible,
        lines: "junction crowd\nclaim infeasible\nleast 1/1\nnodes 55\n",
        begins: "{\"branches\":[[",
        ends: "]]],\"budget\":55,\"claim\":\"infeasible\",\"least\":[1,1],\"plan\":null,\"version\":1}",
        verdict: "proved infeasible\n",
    };
    check_outline(&rt, rt.alloc(), &whole)?;
    let unbounded = Outline {
        words: "capacity|J|C",
        ends: "]]],\"budget\":200000,\"claim\":\"infeasible\",\"least\":[1,1],\"plan\":null,\"version\":1}",
        ..whole
    };
    check_outline(&rt, rt.alloc(), &unbounded)?;
    let cut = Outline {
        words: "capacity|J|C|--budget|54",
        file: file.as_str(),
        changes: &[],
        status: Status::Stopped,
        lines: "junction crowd\nclaim stopped\nleast 1/1\nnodes 54\n",
        begins: "{\"branches\":[[",
        ends: "],null]],\"budget\":54,\"claim\":\"stopped\",\"least\":[1,1],\"plan\":null,\"version\":1}",
        verdict: "partial stopped\n",
    };
    check_outline(&rt, rt.alloc(), &cut)
}
