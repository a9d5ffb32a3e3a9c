ghost use Rattle.std.specs.Prelude.{◌≡◌};
ghost use Rattle.log_monitor.specs.FaultWords.{fault_number, fault_word};

/// Why bytes are no log, in the order in which faults are looked for. A record is told by its
/// number after the header, from 1.
#[derive(Clone, Copy, Debug, PartialEq, Eq)]
pub enum LogFault {
    /// The first record is missing, or isn't `second` and the names of the groups.
    Header,
    /// The record has another number of fields than the header.
    Record(u32),
    /// The record's second isn't a number, or isn't the one after that of the record before.
    Second(u32),
    /// A field of the record isn't the word of an aspect.
    Aspect(u32),
    /// No memory could be had.
    Memory,
}

impl LogFault {
    /// The number that is printed, from 1 to 4; 0 for want of memory, which is no fault of the log.
    pub fn number(&self) -> u32
        ensures { result ≡ fault_number self.now }
    {
        match self {
            LogFault::Header => 1,
            LogFault::Record(_) => 2,
            LogFault::Second(_) => 3,
            LogFault::Aspect(_) => 4,
            LogFault::Memory => 0,
        }
    }

    /// The word that is printed.
    pub fn word(&self) -> &'static str
        ensures { result.now ≡ fault_word self.now }
    {
        match self {
            LogFault::Header => "header",
            LogFault::Record(_) => "record",
            LogFault::Second(_) => "second",
            LogFault::Aspect(_) => "aspect",
            LogFault::Memory => "memory",
        }
    }
}
