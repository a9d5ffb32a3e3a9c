ghost use Rattle.std.specs.Prelude.{◌≡◌, ◌≤◌};
ghost use Rattle.plan_certificate.specs.Certificate.{certificate_of};
ghost use Rattle.plan_model.specs.FittedPlan.{junction_of, fitted_plan_of};
ghost use Rattle.certificate_checker.specs.Verdict.{IsOfRule};
ghost use Rattle.report_text.specs.Verdict.{verdict_line};
ghost use Rattle.aspect_player.specs.Lines.{played_text};
ghost use Rattle.command_words.specs.Words.{most_seconds};
ghost use Rattle.junction_program.specs.Runs.{ran};
ghost use Rattle.junction_program.specs.Outcomes.{Outcome};
ghost use Rattle.junction_program.specs.Steps.{IsPushed, IsPushedInParts, sink_of};
ghost use Rattle.junction_program.specs.Commands.{FileAnswers, Plays, FetchesBoth, PutsNothing};
ghost use Rattle.certificate_checker.specs.declared.verdict.Verdict.TheVariants as verdict;

use crate::ending::end_with;
use crate::files::{Files, accepted_files};
use crate::status::Status;
use aspect_player::{PlayFault, Player, write_rows};
use certificate_checker::{Rule, Verdict};
use plan_model::{FittedPlan, fault_names_law};
use report_text::verdict_text;
use sig_base::{Shelf, Sink};
use std::alloc::Global;

/// Pushes the line of a certificate whose plan is missing or doesn't fit.
fn refuse_plan<K: Sink>(alloc: Global, files: &Files, rule: Rule, out: &mut K) -> Status
    requires { IsOfRule files.now.junction rule }
    ensures { IsPushed (verdict_line files.now.junction
        (certificate_of files.now.certificate).claim (verdict.Broken rule 0 0)) Status.Refuted
        (sink_of K.written K.faults out.old) (sink_of K.written K.faults out.new) result }
{
    let verdict = Verdict::Broken(rule, 0, 0);
    match verdict_text(alloc, &files.junction, &files.certificate, &verdict) {
        Ok(line) => end_with(out, &line, Status::Refuted),
        Err(_) => Status::Memory,
    }
}

/// Pushes the rows of a plan.
fn push_rows<K: Sink>(alloc: Global, plan: &FittedPlan, seconds: u32, out: &mut K) -> Status
    requires { seconds ≤ most_seconds }
    ensures { IsPushedInParts (played_text (junction_of plan.now) (fitted_plan_of plan.now) seconds)
        Status.Done (sink_of K.written K.faults out.old) (sink_of K.written K.faults out.new)
        result }
{
    let mut player = Player::new(plan);
    match write_rows(alloc, &mut player, seconds, out) {
        Ok(()) => Status::Done,
        Err(PlayFault::Sink) => Status::SinkFailed,
        Err(PlayFault::Memory) => Status::Memory,
    }
}

/// Plays the plan of the certificate under a name for so many seconds, and pushes its rows.
pub fn play<S: Shelf, K: Sink>(
    alloc: Global,
    junction_name: &str,
    certificate_name: &str,
    seconds: u32,
    shelf: &mut S,
    out: &mut K,
) -> Status
    requires { seconds ≤ most_seconds }
    ensures { Outcome
        (FileAnswers (Plays seconds) (S.holds shelf.old) junction_name.now certificate_name.now)
        (FetchesBoth (S.holds shelf.old) junction_name.now certificate_name.now) PutsNothing
        (ran S.holds S.faults S.refusals K.written K.faults
        shelf.old shelf.new out.old out.new result) }
{
    fault_names_law();
    let files = match accepted_files(alloc, junction_name, certificate_name, shelf, out) {
        Ok(files) => files,
        Err(status) => return status,
    };
    let Some(plan) = files.certificate.plan else {
        return refuse_plan(alloc, &files, Rule::Plan, out);
    };
    match FittedPlan::new(&files.junction, plan) {
        Ok(fitted) => push_rows(alloc, &fitted, seconds, out),
        Err(fault) => refuse_plan(alloc, &files, Rule::Fit(fault), out),
    }
}
