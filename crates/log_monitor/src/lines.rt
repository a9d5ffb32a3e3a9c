//! The lines of a verdict and of a fault.
ghost use Rattle.std.specs.Prelude.{◌≡◌, ◌≢◌, ◌++◌, ◌<◌, codes, decimal, OnOk, IfOk};
ghost use Rattle.plan_model.specs.Fits.{group_count};
ghost use Rattle.log_monitor.specs.Lines.{name_of, NamesGroups, violation_words, verdict_line};
ghost use Rattle.log_monitor.specs.Lines.{record_words, fault_line};
ghost use Rattle.log_monitor.specs.declared.verdict.LogVerdict.TheVariants.{Unsafe};
ghost use Rattle.log_monitor.specs.declared.violation.Violation.{Violation};

use crate::fault::LogFault;
use crate::verdict::LogVerdict;
use crate::violation::Violation;
use junction_model::Junction;
use sig_base::{NoMemory, put, put_bytes, put_number};
use std::alloc::Global;

fn put_name(text: &mut Vec<u8>, junction: &Junction, group: u32) -> Result<(), NoMemory>
    requires { group < group_count junction.now }
    ensures { OnOk result (text.new.items ≡ text.old.items ++ name_of junction.now group) }
{
    put_bytes(text, junction.groups()[group as usize].label.bytes())
}

/// `KIND GROUP second SECOND`.
fn put_group(
    text: &mut Vec<u8>,
    kind: &str,
    junction: &Junction,
    group: u32,
    second: u64,
) -> Result<(), NoMemory>
    requires { group < group_count junction.now }
    ensures { OnOk result (text.new.items ≡ text.old.items ++
        (kind.now ++ (name_of junction.now group ++ (codes " second " ++ decimal second)))) }
{
    put(text, kind)?;
    put_name(text, junction, group)?;
    put(text, " second ")?;
    put_number(text, second)
}

/// `clearance GROUP GROUP seconds SECOND SECOND`.
fn put_pair(
    text: &mut Vec<u8>,
    junction: &Junction,
    pair: (u32, u32),
    seconds: (u64, u64),
) -> Result<(), NoMemory>
    requires first { pair.0 < group_count junction.now }
    requires second { pair.1 < group_count junction.now }
    ensures { OnOk result (text.new.items ≡ text.old.items ++
        (codes "clearance " ++ (name_of junction.now pair.0 ++
        (codes " " ++ (name_of junction.now pair.1 ++
        (codes " seconds " ++ (decimal seconds.0 ++ (codes " " ++ decimal seconds.1)))))))) }
{
    put(text, "clearance ")?;
    put_name(text, junction, pair.0)?;
    put(text, " ")?;
    put_name(text, junction, pair.1)?;
    put(text, " seconds ")?;
    put_number(text, seconds.0)?;
    put(text, " ")?;
    put_number(text, seconds.1)
}

fn put_violation(
    text: &mut Vec<u8>,
    junction: &Junction,
    violation: Violation,
) -> Result<(), NoMemory>
    requires { NamesGroups junction.now violation }
    ensures { OnOk result
        (text.new.items ≡ text.old.items ++ violation_words junction.now violation) }
{
    match violation {
        Violation::Clearance(i, j, u, v) => put_pair(text, junction, (i, j), (u, v)),
        Violation::Amber(i, v) => put_group(text, "amber ", junction, i, v),
        Violation::Minimum(i, v) => put_group(text, "minimum ", junction, i, v),
    }
}

/// The line of a verdict.
pub fn log_verdict_text(
    alloc: Global,
    junction: &Junction,
    verdict: &LogVerdict,
) -> Result<Vec<u8>, NoMemory>
    requires { (told : Violation) → verdict.now ≡ Unsafe told → NamesGroups junction.now told }
    ensures { IfOk result (λ text. text.items ≡ verdict_line junction.now verdict.now) }
{
    let mut text = Vec::new(alloc);
    match verdict {
        LogVerdict::Safe(rows) => {
            put(&mut text, "safe ")?;
            put_number(&mut text, *rows)?;
        }
        LogVerdict::Unsafe(violation) => {
            put(&mut text, "violation ")?;
            put_violation(&mut text, junction, *violation)?;
        }
    }
    put(&mut text, "\n")?;
    Ok(text)
}

fn put_number_of_record(text: &mut Vec<u8>, number: u32) -> Result<(), NoMemory>
    ensures { OnOk result
        (text.new.items ≡ text.old.items ++ (codes " record " ++ decimal number)) }
{
    put(text, " record ")?;
    put_number(text, number)
}

/// ` record NUMBER`, or nothing where the fault is none of a record.
fn put_record(text: &mut Vec<u8>, fault: LogFault) -> Result<(), NoMemory>
    ensures { OnOk result (text.new.items ≡ text.old.items ++ record_words fault) }
{
    match fault {
        LogFault::Header => Ok(()),
        LogFault::Record(number) => put_number_of_record(text, number),
        LogFault::Second(number) => put_number_of_record(text, number),
        LogFault::Aspect(number) => put_number_of_record(text, number),
        LogFault::Memory => Ok(()),
    }
}

/// The line of a fault, which isn't want of memory.
pub fn log_fault_text(alloc: Global, fault: LogFault) -> Result<Vec<u8>, NoMemory>
    requires { fault ≢ LogFault.Memory }
    ensures { IfOk result (λ text. text.items ≡ fault_line fault) }
{
    let mut text = Vec::new(alloc);
    put(&mut text, "bad log ")?;
    put_number(&mut text, fault.number())?;
    put(&mut text, " ")?;
    put(&mut text, fault.word())?;
    put_record(&mut text, fault)?;
    put(&mut text, "\n")?;
    Ok(text)
}
