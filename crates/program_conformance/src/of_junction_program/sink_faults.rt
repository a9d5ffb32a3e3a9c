//! A sink that fails at each push, and keeps none, some or all of what is pushed.
use super::certificates::{BEST, CLASHING, NO_PLAN, OLD, SHORTEST};
use super::reports::{OF_BEST, OF_NO_PLAN, OF_SHORTEST};
use super::{check, check_held, first_part, shelf_of};
use junction_program::Status;
use samples::{PAIR, RING};
use sig_base::MemorySink;
use std::alloc::Global;
use std::process::Abort;
use std::test::Fail;

/// The words, what lies under `J` and under `C`, the number of the push that fails, what was pushed before, what is
/// pushed then, and what lies under `C` afterwards.
#[derive(Clone, Copy)]
struct Push<'a> {
    words: &'a str,
    junction: &'a str,
    certificate: &'a str,
    push: u64,
    before: &'a str,
    piece: &'a str,
    put: &'a str,
}

const PUSHES: [Push<'static>; 11] = [
    Push {
        words: "capacity|J|C",
        junction: PAIR,
        certificate: OLD,
        push: 1,
        before: "",
        piece: OF_BEST,
        put: BEST,
    },
    Push {
        words: "capacity|J|C|--least|2/1",
        junction: PAIR,
        certificate: "",
        push: 1,
        before: "",
        piece: OF_NO_PLAN,
        put: NO_PLAN,
    },
    Push {
        words: "cycle|J|C|--budget|2",
        junction: RING,
        certificate: OLD,
        push: 1,
        before: "",
        piece: OF_SHORTEST,
        put: SHORTEST,
    },
    Push {
        words: "check|J|C",
        junction: PAIR,
        certificate: BEST,
        push: 1,
        before: "",
        piece: "proved capacity\n",
        put: BEST,
    },
    Push {
        words: "check|J|C",
        junction: PAIR,
        certificate: CLASHING,
        push: 1,
        before: "",
        piece: "refuted 2 fit clash A B second 1\n",
        put: CLASHING,
    },
    Push {
        words: "check|J|C",
        junction: PAIR,
        certificate: OLD,
        push: 1,
        before: "",
        piece: "bad certificate 1 not_json\n",
        put: OLD,
    },
    Push {
        words: "play|J|C|1",
        junction: PAIR,
        certificate: NO_PLAN,
        push: 1,
        before: "",
        piece: "refuted 1 plan\n",
        put: NO_PLAN,
    },
    Push {
        words: "play|J|C|40",
        junction: RING,
        certificate: SHORTEST,
        push: 1,
        before: "",
        piece: "second,A,B,C\n",
        put: SHORTEST,
    },
    Push {
        words: "play|J|C|40",
        junction: RING,
        certificate: SHORTEST,
        push: 3,
        before: "second,A,B,C\n0,green,red,red\n",
        piece: "1,green,red,red\n",
        put: SHORTEST,
    },
    Push {
        words: "cycle|J|C",
        junction: OLD,
        certificate: BEST,
        push: 1,
        before: "",
        piece: "bad junction 1 not_toml top 0 whole\n",
        put: BEST,
    },
    Push {
        words: "capacity|J",
        junction: PAIR,
        certificate: BEST,
        push: 1,
        before: "",
        piece: "bad words\n",
        put: BEST,
    },
];

fn check_push(rt: &impl Abort, alloc: Global, row: &Push, kept: u64) -> Result<(), Fail> {
    let mut shelf = shelf_of(alloc, row.junction, row.certificate)?;
    let mut sink = MemorySink::new(alloc);
    sink.fail_at(row.push, kept)?;
    let text = format!(in alloc; "{}{}", row.before, first_part(row.piece, kept)?)?;
    let want = (Status::SinkFailed, text.as_str());
    check(rt, alloc, row.words, &mut shelf, sink, want)?;
    check_held(rt, &shelf, "J", row.junction)?;
    check_held(rt, &shelf, "C", row.put)
}

#[test]
fn each_push_that_fails(rt: HostRuntime) -> Result<(), Fail> {
    for row in &PUSHES {
        for kept in [0, 2, 4, 1000] {
            check_push(&rt, rt.alloc(), row, kept)?;
        }
    }
    Ok(())
}
