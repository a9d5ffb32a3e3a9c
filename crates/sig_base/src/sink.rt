ghost use Rattle.std.specs.Prelude.{◌≡◌, ℕ, List, Option};
ghost use Rattle.sig_base.specs.declared.sink.SinkFault.TheVariants.{Memory};

use std::alloc::AllocError;

/// Why a sink didn't take a whole piece.
#[derive(Clone, Copy, Debug, PartialEq, Eq)]
pub enum SinkFault {
    /// The output failed; a prefix of the piece was written.
    Failed,
    /// No memory could be had; nothing was written.
    Memory,
}

impl From<AllocError> for SinkFault {
    ghost from_gives = { λ _ fault. fault ≡ Memory };

    fn from(_error: AllocError) -> SinkFault {
        SinkFault::Memory
    }
}

/// An output that takes bytes in pieces.
///
/// It has two meanings: the bytes written, where it tells them, and a count of its faults, which
/// never falls, and stays in a push of a whole piece.
pub trait Sink {
    ghost use Rattle.sig_base.specs.Sink.{Pushes};

    ghost written: { Self → Option (List ℕ) };

    ghost faults: { Self → ℕ };

    /// Appends the whole piece.
    fn push(&mut self, bytes: &[u8]) -> Result<(), SinkFault>
        ensures { Pushes (written self.old) (written self.new) bytes.now
            (faults self.old) (faults self.new) result };
}
