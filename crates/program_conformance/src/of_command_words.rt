use crate::words::words_of;
use command_words::{Command, read_words};
use sig_base::Ratio;
use std::alloc::Global;
use std::process::Abort;
use std::test::Fail;

/// Words after `capacity` or `cycle`, parted by bars, and the least multiple and the budget that they
/// spell. A missing option is 1/1 or 200000, and a multiple is in lowest terms: 6/4 is 3/2, 0/7 is 0/1.
const SEARCHES: [(&str, (u64, u64), u64); 9] = [
    ("J|C", (1, 1), 200_000),
    ("J|C|--least|3/2", (3, 2), 200_000),
    ("J|C|--budget|5", (1, 1), 5),
    ("J|C|--least|6/4|--budget|7", (3, 2), 7),
    ("J|C|--budget|7|--least|0/7", (0, 1), 7),
    ("J|C|--least|1000000/1", (1_000_000, 1), 200_000),
    ("J|C|--least|0/1000000", (0, 1), 200_000),
    ("J|C|--budget|1", (1, 1), 1),
    ("J|C|--budget|18446744073709551615", (1, 1), u64::MAX),
];

/// Words that have no form: names, then options, then numbers, then the first word, then empty words and none.
const NO_FORMS: [&str; 53] = [
    "capacity|J",
    "capacity|J|J",
    "capacity||C",
    "capacity|J|",
    "capacity|-J|C",
    "capacity|J|-",
    "capacity|J|C|D",
    "check|J|J",
    "check|J|C|--budget|5",
    "check|J|C|D",
    "capacity|--budget|5|J|C",
    "capacity|J|C|--budget",
    "capacity|J|C|--budget=5",
    "capacity|J|C|--Budget|5",
    "capacity|J|C|--least|1/1|--least|1/1",
    "capacity|J|C|--budget|5|--budget|5",
    "capacity|J|C|--least|1/1|--budget",
    "capacity|J|C|--least|1/1|--budget|5|--least|1/1",
    "cycle|J|C|--budget|0",
    "cycle|J|C|--budget|",
    "cycle|J|C|--budget|05",
    "cycle|J|C|--budget|+5",
    "cycle|J|C|--budget|5 ",
    "cycle|J|C|--budget|18446744073709551616",
    "cycle|J|C|--budget|100000000000000000000000000000",
    "cycle|J|C|--least|01/1",
    "cycle|J|C|--least|1/01",
    "cycle|J|C|--least|1",
    "cycle|J|C|--least|1/",
    "cycle|J|C|--least|/1",
    "cycle|J|C|--least|1/0",
    "cycle|J|C|--least|1/2/3",
    "cycle|J|C|--least|1000001/1",
    "cycle|J|C|--least|1/1000001",
    "play|J|C",
    "play|J|J|5",
    "play|J|C|5|D",
    "play|5|J|C",
    "play|J|C|",
    "play|J|C|-1",
    "play|J|C|+1",
    "play|J|C|01",
    "play|J|C|5 ",
    "play|J|C|604801",
    "sample|J|C",
    "sample|1|J|J",
    "sample|01|J|C",
    "sample|4294967296|J|C",
    "sample|1|J|C|D",
    "play|J|C|18446744073709551616",
    "Capacity|J|C",
    "|",
    "",
];

fn spells(
    rt: &impl Abort,
    alloc: Global,
    text: &str,
    want: Option<Command<'_>>,
) -> Result<(), Fail> {
    let words = words_of(alloc, text)?;
    assert_eq!(rt; read_words(&words), want, "{text}");
    Ok(())
}

#[test]
fn searches(rt: HostRuntime) -> Result<(), Fail> {
    let alloc = rt.alloc();
    for (text, (num, den), budget) in SEARCHES {
        let least = Ratio::new(num, den).ok_or("no ratio")?;
        let capacity = Command::Capacity("J", "C", least, budget);
        let cycle = Command::Cycle("J", "C", least, budget);
        spells(
            &rt,
            alloc,
            format!(in alloc; "capacity|{text}")?.as_str(),
            Some(capacity),
        )?;
        spells(
            &rt,
            alloc,
            format!(in alloc; "cycle|{text}")?.as_str(),
            Some(cycle),
        )?;
    }
    Ok(())
}

#[test]
fn checks(rt: HostRuntime) -> Result<(), Fail> {
    let alloc = rt.alloc();
    spells(&rt, alloc, "check|J|C", Some(Command::Check("J", "C")))?;
    spells(
        &rt,
        alloc,
        "check|a b|./-c",
        Some(Command::Check("a b", "./-c")),
    )
}

/// The words for the least and the greatest number of a sample.
const SAMPLES: [(&str, u32); 2] = [("sample|0|J|C", 0), ("sample|4294967295|J|C", u32::MAX)];

#[test]
fn numbers_of_samples(rt: HostRuntime) -> Result<(), Fail> {
    let alloc = rt.alloc();
    for (text, number) in SAMPLES {
        spells(&rt, alloc, text, Some(Command::Sample(number, "J", "C")))?;
    }
    Ok(())
}

/// The words for seconds from none to a week.
const PLAYS: [(&str, u32); 3] = [
    ("play|J|C|0", 0),
    ("play|J|C|40", 40),
    ("play|J|C|604800", 604_800),
];

#[test]
fn plays(rt: HostRuntime) -> Result<(), Fail> {
    let alloc = rt.alloc();
    for (text, seconds) in PLAYS {
        spells(&rt, alloc, text, Some(Command::Play("J", "C", seconds)))?;
    }
    Ok(())
}

#[test]
fn words_without_a_form(rt: HostRuntime) -> Result<(), Fail> {
    let alloc = rt.alloc();
    for text in NO_FORMS {
        spells(&rt, alloc, text, None)?;
    }
    Ok(())
}
