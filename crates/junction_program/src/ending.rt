ghost use Rattle.std.specs.Prelude.{◌≡◌, ◌≢◌};
ghost use Rattle.report_text.specs.Refusal.{refusal_line};
ghost use Rattle.report_text.specs.declared.refusal.Refusal.TheVariants.{BadCertificate};
ghost use Rattle.plan_certificate.specs.declared.fault.CertificateFault.TheVariants as fault;
ghost use Rattle.junction_program.specs.Steps.{IsPushed, sink_of};

use crate::status::Status;
use report_text::{Refusal, refusal_text};
use sig_base::{Sink, SinkFault};
use std::alloc::Global;

/// Pushes the text of a status, and answers the status, or the fault of the push.
pub fn end_with<K: Sink>(out: &mut K, text: &[u8], status: Status) -> Status
    requires no_fault { status ≢ Status.SinkFailed }
    requires no_want { status ≢ Status.Memory }
    ensures { IsPushed text.now status (sink_of K.written K.faults out.old)
        (sink_of K.written K.faults out.new) result }
{
    match out.push(text) {
        Ok(()) => status,
        Err(SinkFault::Failed) => Status::SinkFailed,
        Err(SinkFault::Memory) => Status::Memory,
    }
}

/// Pushes the line of a refusal, and ends with its status.
pub fn refuse<K: Sink>(alloc: Global, refusal: Refusal, status: Status, out: &mut K) -> Status
    requires told { refusal ≢ BadCertificate fault.Memory }
    requires no_fault { status ≢ Status.SinkFailed }
    requires no_want { status ≢ Status.Memory }
    ensures { IsPushed (refusal_line refusal) status (sink_of K.written K.faults out.old)
        (sink_of K.written K.faults out.new) result }
{
    match refusal_text(alloc, refusal) {
        Ok(line) => end_with(out, &line, status),
        Err(_) => Status::Memory,
    }
}
