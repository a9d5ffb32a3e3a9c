ghost use Rattle.std.specs.Prelude.{◌≡◌, None};
ghost use Rattle.command_words.specs.Words.{texts, command_of};
ghost use Rattle.junction_program.specs.Runs.{ran};
ghost use Rattle.junction_program.specs.Outcomes.{Outcome, OrPushFault};
ghost use Rattle.junction_program.specs.Commands.{answers_of, fetches_of, puts_of};
ghost use Rattle.junction_program.specs.Headline.{IsCommandRun};

use crate::designing::design_plan;
use crate::ending::refuse;
use crate::judging::judge;
use crate::playing::play;
use crate::sampling::design_sample;
use crate::status::Status;
use aspect_player::safety_law;
use certificate_checker::rules_law;
use command_words::{Command, read_words};
use junction_files::reading_laws;
use plan_certificate::text_laws;
use plan_design::Objective;
use plan_model::fault_law;
use report_text::Refusal;
use sample_junctions::sample_law;
use sig_base::{Shelf, Sink};
use std::alloc::Global;

fn perform<S: Shelf, K: Sink>(alloc: Global, words: &[String], shelf: &mut S, out: &mut K) -> Status
    ensures outcome { Outcome (answers_of (command_of (texts words.now)) (S.holds shelf.old))
        (fetches_of (command_of (texts words.now)) (S.holds shelf.old))
        (puts_of (command_of (texts words.now)) (S.holds shelf.old))
        (ran S.holds S.faults S.refusals K.written K.faults
        shelf.old shelf.new out.old out.new result) }
    ensures unasked { command_of (texts words.now) ≡ None → shelf.new ≡ shelf.old }
{
    match read_words(words) {
        Some(Command::Capacity(junction, certificate, least, budget)) => {
            design_plan(
                alloc,
                Objective::Capacity,
                junction,
                certificate,
                least,
                budget,
                shelf,
                out,
            )
        }
        Some(Command::Cycle(junction, certificate, least, budget)) => {
            design_plan(
                alloc,
                Objective::Cycle,
                junction,
                certificate,
                least,
                budget,
                shelf,
                out,
            )
        }
        Some(Command::Check(junction, certificate)) => {
            judge(alloc, junction, certificate, shelf, out)
        }
        Some(Command::Play(junction, certificate, seconds)) => {
            play(alloc, junction, certificate, seconds, shelf, out)
        }
        Some(Command::Sample(number, junction, certificate)) => {
            design_sample(alloc, number, junction, certificate, shelf, out)
        }
        None => refuse(alloc, Refusal::BadWords, Status::BadWords, out),
    }
}

/// Runs the command that the words spell over a shelf of files and a sink:
///
/// - `capacity JUNCTION CERT [--least N/D] [--budget N]` designs a plan of the greatest reserve capacity, puts its
///   certificate under CERT and pushes its report;
/// - `cycle JUNCTION CERT [--least N/D] [--budget N]` does the same for a plan of the shortest cycle;
/// - `check JUNCTION CERT` judges a certificate, and pushes the line of the verdict;
/// - `play JUNCTION CERT SECONDS` plays its plan, and pushes what each head shows at each second;
/// - `sample NUMBER JUNCTION CERT` makes a large junction from a number and puts it, designs a plan of it as `capacity`
///   does, and pushes a summary.
pub fn run<S: Shelf, K: Sink>(alloc: Global, words: &[String], shelf: &mut S, out: &mut K) -> Status
    // What the statuses of the command mean: the plan that is put is the best of all, `infeasible` is the truth, a search
    // stops only where its budget doesn't cover the junction, and the checker's yes is true of all plans, and
    // what is played is safe.
    ensures command { IsCommandRun (command_of (texts words.now))
        (ran S.holds S.faults S.refusals K.written K.faults
        shelf.old shelf.new out.old out.new result) }

    // Words that spell no command. This is told, unless the run ends with 8 or 9, and nothing is asked of the shelf.
    ensures bad_words { result ≡ Status.BadWords → command_of (texts words.now) ≡ None }
    ensures bad_words_always { command_of (texts words.now) ≡ None →
        OrPushFault Status.BadWords result }
    ensures bad_words_unasked { command_of (texts words.now) ≡ None → shelf.new ≡ shelf.old }

    // An answer is put and pushed whole; a fault of the shelf or the sink has its cause, and what was put and pushed
    // before it is told; so it is where no memory could be had.
    ensures outcome { Outcome (answers_of (command_of (texts words.now)) (S.holds shelf.old))
        (fetches_of (command_of (texts words.now)) (S.holds shelf.old))
        (puts_of (command_of (texts words.now)) (S.holds shelf.old))
        (ran S.holds S.faults S.refusals K.written K.faults
        shelf.old shelf.new out.old out.new result) }
{
    reading_laws();
    text_laws();
    rules_law();
    fault_law();
    safety_law();
    sample_law();
    perform(alloc, words, shelf, out)
}
