ghost use Rattle.std.specs.Prelude.{◌≡◌, None, IsErrOf};
ghost use Rattle.sig_base.specs.Answers.{push_faults_after};
ghost use Rattle.sig_base.specs.Sink.{Pushes};
ghost use Rattle.sig_base.specs.declared.sink.SinkFault.TheVariants.{Memory};

use crate::sink::{Sink, SinkFault};
use crate::write_whole::write_whole;
use std::io;
use std::io::Print;
use std::marker::Model;

/// A sink over standard output. It doesn't tell what was written, and takes no memory.
#[derive(Drop)]
pub struct StdSink<'r, R: Print> {
    rt: &'r R,
    faults: u64,
}

impl<'r, R: Print> Model for StdSink<'r, R> {
    ghost use Rattle.sig_base.specs.StdSink.{StdSinkState};

    ghost Value = { StdSinkState };

    ghost view = { λ s. record { faults = s.faults } };
}

impl<'r, R: Print> StdSink<'r, R> {
    /// A sink over the output of `rt`, with no fault yet.
    pub fn new(rt: &'r R) -> StdSink<'r, R>
        ensures { result ≡ record { faults = 0 } }
    {
        StdSink { rt, faults: 0 }
    }
}

impl<'r, R: Print> Sink for StdSink<'r, R> {
    ghost written = { λ _. None };

    ghost faults = { λ s. s.faults };

    fn push(&mut self, bytes: &[u8]) -> Result<(), SinkFault>
        ensures pushes { Pushes None None bytes.now self.old.faults self.new.faults result }
        ensures faults { self.new.faults ≡ push_faults_after result self.old.faults }
        ensures no_memory { ¬ IsErrOf result Memory }
    {
        if write_whole(&mut io::writer(self.rt), bytes) {
            return Ok(());
        }
        self.faults = self.faults.saturating_add(1);
        Err(SinkFault::Failed)
    }
}
