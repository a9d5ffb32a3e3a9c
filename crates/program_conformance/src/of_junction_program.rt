//! The top call over a shelf and a sink in memory. A junction lies under `J`, a certificate under `C`.
mod certificates;
mod changes;
mod checks;
mod designs;
mod generated;
mod given;
mod outlines;
mod plays;
mod refusals;
mod reports;
mod shelf_faults;
mod sink_faults;

use crate::words::words_of;
use junction_program::{Status, run};
use sig_base::{MemoryShelf, MemorySink, Shelf, ShelfFault};
use std::alloc::Global;
use std::process::Abort;
use std::test::Fail;

/// A shelf that holds the text of a junction, and beside it one of a certificate, if that isn't empty.
fn shelf_of(alloc: Global, junction: &str, certificate: &str) -> Result<MemoryShelf, Fail> {
    let mut shelf = MemoryShelf::new(alloc);
    shelf.set("J", junction.as_bytes())?;
    if !certificate.is_empty() {
        shelf.set("C", certificate.as_bytes())?;
    }
    Ok(shelf)
}

/// Runs the words, which are parted by bars.
fn run_words(
    alloc: Global,
    words: &str,
    shelf: &mut MemoryShelf,
    out: &mut MemorySink,
) -> Result<Status, Fail> {
    let words = words_of(alloc, words)?;
    Ok(run(alloc, &words, shelf, out))
}

/// Runs the words, and looks at the status and at what was written.
fn check(
    rt: &impl Abort,
    alloc: Global,
    words: &str,
    shelf: &mut MemoryShelf,
    mut out: MemorySink,
    want: (Status, &str),
) -> Result<(), Fail> {
    let status = run_words(alloc, words, shelf, &mut out)?;
    assert_eq!(rt;
        (status, out.bytes()),
        (want.0, want.1.as_bytes()),
        "{words}"
    );
    Ok(())
}

/// Has the certificate checked, and looks at the line.
fn check_verdict(
    rt: &impl Abort,
    alloc: Global,
    shelf: &mut MemoryShelf,
    line: &str,
) -> Result<(), Fail> {
    let status = if line == "partial stopped\n" {
        Status::Stopped
    } else {
        Status::Done
    };
    let want = (status, line);
    check(rt, alloc, "check|J|C", shelf, MemorySink::new(alloc), want)
}

/// Looks at what lies under a name. Nothing is wanted where the text is empty.
fn check_held(rt: &impl Abort, shelf: &MemoryShelf, name: &str, want: &str) -> Result<(), Fail> {
    if want.is_empty() {
        assert!(rt; shelf.held(name).is_none(), "{name}");
        return Ok(());
    }
    let bytes = shelf.held(name).ok_or("nothing was put")?;
    assert_eq!(rt; bytes, want.as_bytes(), "{name}");
    Ok(())
}

/// Looks whether the next call of the shelf is the one that was to fail.
fn check_next_call(rt: &impl Abort, alloc: Global, shelf: &mut MemoryShelf) -> Result<(), Fail> {
    let fetched = shelf.fetch(alloc, "J", u32::MAX);
    assert_eq!(rt; fetched.err(), Some(ShelfFault::Failed));
    Ok(())
}

/// The first bytes of a text, or all of a shorter one.
fn first_part(text: &str, kept: u64) -> Result<&str, Fail> {
    let length = kept.min(text.len() as u64) as usize;
    Ok(text.get(..length).ok_or("a letter that is cut")?)
}
