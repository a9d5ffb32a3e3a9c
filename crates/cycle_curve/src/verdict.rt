use certificate_checker::Rule;
use sig_base::NoMemory;

/// What the check of a curve finds.
#[derive(Clone, Copy, Debug, PartialEq, Eq)]
pub enum CurveVerdict {
    /// The multiplier of each row is the greatest of its cycle, or there is no plan of the cycle.
    Proved,
    /// No row is at fault, and some row is that of a stopped search.
    Partial,
    /// The first row at fault, by its cycle in seconds, claims a shortest cycle, or asks for another
    /// least than 0/1.
    Claim(u32),
    /// The first row at fault breaks a rule of certificates: the first such rule, the row's cycle in
    /// seconds and the place of the node, which is 0 for a rule that isn't one of trees.
    Broken(Rule, u32, u64),
}

/// Why the bytes are no curve, in the order in which faults are looked for.
#[derive(Clone, Copy, Debug, PartialEq, Eq)]
pub enum CurveFault {
    /// The bytes don't end with a line feed, or there aren't as many lines as cycles.
    Lines,
    /// The line of this number, from 1, is no JSON text.
    NotJson(u32),
    /// Its value has another shape than a certificate.
    Shape(u32),
    /// A part is out of its range.
    Range(u32),
    /// No memory could be had.
    Memory,
}

impl From<NoMemory> for CurveFault {
    ghost use Rattle.std.specs.Prelude.{◌≡◌};
    ghost use Rattle.cycle_curve.specs.declared.verdict.CurveFault.TheVariants.{Memory};

    ghost from_gives = { λ _ fault. fault ≡ Memory };

    fn from(_no_memory: NoMemory) -> CurveFault {
        CurveFault::Memory
    }
}
