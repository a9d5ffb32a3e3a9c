ghost use Rattle.std.specs.Prelude.{◌≡◌};
ghost use Rattle.plan_certificate.specs.FaultWords.{fault_number, fault_word};
ghost use Rattle.plan_certificate.specs.declared.fault.CertificateFault.TheVariants.{Memory};

use sig_base::NoMemory;

/// Why no certificate was read, in the order in which faults are looked for.
#[derive(Clone, Copy, Debug, PartialEq, Eq)]
pub enum CertificateFault {
    /// The bytes are no JSON text.
    NotJson,
    /// The value isn't an object with exactly the six keys, or a part has another kind than its key asks for.
    Shape,
    /// A part is out of its range.
    Range,
    /// No memory could be had.
    Memory,
}

impl CertificateFault {
    /// The number that is printed, from 1 to 3; 0 for want of memory, which is no fault of the bytes.
    pub fn number(&self) -> u32
        ensures { result ≡ fault_number self.now }
    {
        match self {
            CertificateFault::NotJson => 1,
            CertificateFault::Shape => 2,
            CertificateFault::Range => 3,
            CertificateFault::Memory => 0,
        }
    }

    /// The word that is printed.
    pub fn word(&self) -> &'static str
        ensures { result.now ≡ fault_word self.now }
    {
        match self {
            CertificateFault::NotJson => "not_json",
            CertificateFault::Shape => "shape",
            CertificateFault::Range => "range",
            CertificateFault::Memory => "memory",
        }
    }
}

impl From<NoMemory> for CertificateFault {
    ghost from_gives = { λ _ fault. fault ≡ Memory };

    fn from(_no_memory: NoMemory) -> CertificateFault {
        CertificateFault::Memory
    }
}
