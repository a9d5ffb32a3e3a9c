ghost use Rattle.std.specs.Prelude.{◌≡◌, ◌≢◌, ◌<◌, ◌↔◌, ℕ, IsTrue};
ghost use Rattle.sig_base.specs.LaneSet.{IsIn, without};

/// A set of lanes of a junction: lane `k`, counted from 0, is in it where bit `k`, counted from the
/// lowest, is 1.
#[derive(Clone, Copy, Debug, PartialEq, Eq)]
pub struct LaneSet {
    pub bits: u32,
}

impl LaneSet {
    /// Whether the lane, counted from 0, is in the set.
    pub fn contains(&self, lane: usize) -> bool
        requires { lane < 32 }
        ensures { IsTrue result ↔ IsIn self.now lane }
    {
        (self.bits >> lane) & 1 == 1
    }

    /// The set without the lane, counted from 0: the same set where the lane isn't in it.
    pub fn without(&self, lane: usize) -> LaneSet
        requires { lane < 32 }
        ensures value { result ≡ without self.now lane }
        ensures members { (k : ℕ) → k < 32 → IsIn result k ↔ (IsIn self.now k × (k ≢ lane)) }
    {
        LaneSet {
            bits: self.bits & !(1 << lane),
        }
    }
}
