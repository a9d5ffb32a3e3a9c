ghost use Rattle.std.specs.Prelude.{◌≡◌};
ghost use Rattle.junction_program.specs.StatusNumber.{status_number};

/// How a run ended. The program ends with the status's number.
#[derive(Clone, Copy, Debug, PartialEq, Eq)]
pub enum Status {
    /// The asked work was done and its text was pushed.
    Done,
    /// No plan of the junction meets the asked flow multiple.
    Infeasible,
    /// The search stopped at its budget.
    Stopped,
    /// A certificate was refuted, or its plan, which was to be played, is missing or doesn't fit.
    Refuted,
    /// The words have no form of the command line.
    BadWords,
    /// The junction's bytes were refused.
    BadJunction,
    /// The certificate's bytes were refused.
    BadCertificate,
    /// The shelf failed, or doesn't hold a name that was asked for.
    ShelfFailed,
    /// The sink failed; it has got a prefix of the text.
    SinkFailed,
    /// No memory could be had.
    Memory,
    /// A file is longer than its limit.
    TooLong,
}

impl Status {
    /// The exit status of the program.
    pub fn number(&self) -> u8
        ensures { result ≡ status_number self.now }
    {
        match self {
            Status::Done => 0,
            Status::Infeasible => 1,
            Status::Stopped => 2,
            Status::Refuted => 3,
            Status::BadWords => 4,
            Status::BadJunction => 5,
            Status::BadCertificate => 6,
            Status::ShelfFailed => 7,
            Status::SinkFailed => 8,
            Status::Memory => 9,
            Status::TooLong => 10,
        }
    }
}
