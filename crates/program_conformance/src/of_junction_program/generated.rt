//! What a sample puts and prints, and what is left of it where the shelf or the sink fails.
use super::{check, check_held, check_next_call, check_verdict, first_part, run_words};
use junction_files::{print, read};
use junction_program::Status;
use sample_junctions::sample;
use sig_base::{MemoryShelf, MemorySink};
use std::alloc::Global;
use std::process::Abort;
use std::test::Fail;

/// The file of the junction of a number.
fn printed(alloc: Global, number: u32) -> Result<String, Fail> {
    Ok(String::from_utf8(print(alloc, &sample(alloc, number)?)?)?)
}

/// How a run on an empty shelf ended, with what it put and what it wrote.
fn sampled(alloc: Global, words: &str) -> Result<(Status, MemoryShelf, MemorySink), Fail> {
    let mut shelf = MemoryShelf::new(alloc);
    let mut sink = MemorySink::new(alloc);
    let status = run_words(alloc, words, &mut shelf, &mut sink)?;
    Ok((status, shelf, sink))
}

/// The status and the line of a check, by the last line of a summary.
fn verdict_of(summary: &str) -> Result<(Status, &str), Fail> {
    match summary.split_once("\nverdict ") {
        Some((_, "proved\n")) => Ok((Status::Done, "proved capacity\n")),
        Some((_, "partial\n")) => Ok((Status::Stopped, "partial stopped\n")),
        _ => Err(Fail::new("no verdict")),
    }
}

/// Runs a sample twice, and looks at how its summary begins and at the verdict.
fn check_sample(
    rt: &impl Abort,
    alloc: Global,
    number: u32,
    words: &str,
    begins: &str,
) -> Result<(), Fail> {
    let (status, mut shelf, sink) = sampled(alloc, words)?;
    let (again, other, more) = sampled(alloc, words)?;
    assert_eq!(rt; (status, sink.bytes()), (again, more.bytes()));
    assert_eq!(rt; shelf.held("C"), other.held("C"));
    let summary = str::from_utf8(sink.bytes())?;
    assert!(rt; summary.starts_with(begins), "{summary}");
    let (wanted, line) = verdict_of(summary)?;
    assert_eq!(rt; status, wanted, "{summary}");
    check_verdict(rt, alloc, &mut shelf, line)?;
    let file = printed(alloc, number)?;
    check_held(rt, &shelf, "J", file.as_str())?;
    let junction = read(alloc, shelf.held("J").ok_or("no junction was put")?)?;
    assert_eq!(rt; &print(alloc, &junction)?[..], file.as_bytes());
    Ok(())
}

/// A script that draws samples counted the groups, lanes and conflicts.
#[test]
fn two_runs_of_a_sample(rt: HostRuntime) -> Result<(), Fail> {
    let begins = "sample 1\ngroups 16\nlanes 32\nconflicts 45\n";
    check_sample(&rt, rt.alloc(), 1, "sample|1|J|C", begins)
}

/// Its trees have 31171 nodes at most, which the budget covers.
#[test]
fn a_sample_that_its_budget_covers(rt: HostRuntime) -> Result<(), Fail> {
    let begins = "sample 142\ngroups 8\nlanes 16\nconflicts 12\nclaim capacity\n";
    check_sample(&rt, rt.alloc(), 142, "sample|142|J|C", begins)
}

/// The first call is the put of the junction, the second that of the certificate.
#[test]
fn a_sample_that_is_not_put(rt: HostRuntime) -> Result<(), Fail> {
    let alloc = rt.alloc();
    let file = printed(alloc, 1)?;
    for (call, held) in [(1u64, ""), (2, file.as_str())] {
        let mut shelf = MemoryShelf::new(alloc);
        shelf.fail_at(call)?;
        shelf.fail_at(call.saturating_add(1))?;
        let want = (Status::ShelfFailed, "shelf failed\n");
        let sink = MemorySink::new(alloc);
        check(&rt, alloc, "sample|1|J|C", &mut shelf, sink, want)?;
        check_next_call(&rt, alloc, &mut shelf)?;
        check_held(&rt, &shelf, "J", held)?;
        check_held(&rt, &shelf, "C", "")?;
    }
    Ok(())
}

#[test]
fn a_summary_that_is_not_pushed(rt: HostRuntime) -> Result<(), Fail> {
    let alloc = rt.alloc();
    let file = printed(alloc, 142)?;
    let (_, whole, all) = sampled(alloc, "sample|142|J|C")?;
    let summary = str::from_utf8(all.bytes())?;
    for kept in [0, 9, 1000] {
        let mut shelf = MemoryShelf::new(alloc);
        let mut sink = MemorySink::new(alloc);
        sink.fail_at(1, kept)?;
        let want = (Status::SinkFailed, first_part(summary, kept)?);
        check(&rt, alloc, "sample|142|J|C", &mut shelf, sink, want)?;
        check_held(&rt, &shelf, "J", file.as_str())?;
        assert_eq!(rt; shelf.held("C"), whole.held("C"));
    }
    Ok(())
}
