ghost use Rattle.std.specs.Prelude.{◌≡◌};
ghost use Rattle.junction_program.specs.Runs.{ran};
ghost use Rattle.junction_program.specs.Outcomes.{Outcome, IsAnswered};
ghost use Rattle.junction_program.specs.Commands.{FileAnswers, Judges, FetchesBoth, PutsNothing, status_of_verdict};

use crate::ending::end_with;
use crate::files::accepted_files;
use crate::status::Status;
use certificate_checker::{Verdict, check};
use report_text::verdict_text;
use sig_base::{Shelf, Sink};
use std::alloc::Global;

fn status_of_verdict(verdict: &Verdict) -> Status
    ensures value { result ≡ status_of_verdict verdict.now }
    ensures answered { IsAnswered result }
{
    match verdict {
        Verdict::Proved => Status::Done,
        Verdict::Partial => Status::Stopped,
        Verdict::Broken(_, _, _) => Status::Refuted,
    }
}

/// Judges the certificate under a name, and pushes the line of its verdict.
pub fn judge<S: Shelf, K: Sink>(
    alloc: Global,
    junction_name: &str,
    certificate_name: &str,
    shelf: &mut S,
    out: &mut K,
) -> Status
    ensures { Outcome
        (FileAnswers Judges (S.holds shelf.old) junction_name.now certificate_name.now)
        (FetchesBoth (S.holds shelf.old) junction_name.now certificate_name.now) PutsNothing
        (ran S.holds S.faults S.refusals K.written K.faults
        shelf.old shelf.new out.old out.new result) }
{
    let files = match accepted_files(alloc, junction_name, certificate_name, shelf, out) {
        Ok(files) => files,
        Err(status) => return status,
    };
    let verdict = check(&files.junction, &files.certificate);
    match verdict_text(alloc, &files.junction, &files.certificate, &verdict) {
        Ok(text) => end_with(out, &text, status_of_verdict(&verdict)),
        Err(_) => Status::Memory,
    }
}
