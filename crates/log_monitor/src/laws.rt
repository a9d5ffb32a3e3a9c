//! What is true of all lists of rows, of what a monitor remembers of them, and of all logs. The
//! functions do nothing: they are the place where the laws are proved.
ghost use Rattle.log_monitor.specs.MonitorLaws.{PrefixLaw, MemoryLaw, NextLaw};
ghost use Rattle.log_monitor.specs.LogLaws.{OneLogLaw, NoLogLaw, OneFaultLaw, LogOrFaultLaw};
ghost use Rattle.log_monitor.specs.LogLaws.{UnsafeLaw, OneViolationLaw, OneVerdictLaw, GroupsLaw};
ghost use Rattle.log_monitor.specs.LogLaws.{RowsTextLaw, SafeTextLaw, DisplayedLaw, PlayedLaw};

use aspect_player::safety_law;

/// A part of a safe list from its beginning is safe. The memory of a list with a row added is the
/// list's memory with that row added. Where a list is safe, the next violation of its memory and a
/// row is the first violation of the list with that row, and there is none exactly where that list
/// is safe.
pub fn monitor_laws()
    ensures prefix { PrefixLaw }
    ensures memory { MemoryLaw }
    ensures next { NextLaw }
{}

/// Records are a log, or they have a first fault: never both, and one fault alone. A log has one
/// list of rows. A list with a first violation isn't safe, and has one first violation. So records
/// are judged in one way, where memory could be had. The text of rows is their log; that of safe
/// rows is judged safe, with their number, or no memory could be had. So is the text of the rows
/// of any display that are safe: of what a plan that fits plays, and of what is shown while plans
/// change.
pub fn log_laws()
    ensures one_log { OneLogLaw }
    ensures no_log { NoLogLaw }
    ensures one_fault { OneFaultLaw }
    ensures log_or_fault { LogOrFaultLaw }
    ensures violated { UnsafeLaw }
    ensures one_violation { OneViolationLaw }
    ensures one_verdict { OneVerdictLaw }
    ensures groups { GroupsLaw }
    ensures rows_text { RowsTextLaw }
    ensures safe_text { SafeTextLaw }
    ensures displayed { DisplayedLaw }
    ensures played { PlayedLaw }
{
    safety_law();
}
