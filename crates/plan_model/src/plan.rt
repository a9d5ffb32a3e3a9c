ghost use Rattle.std.specs.Prelude.{◌≡◌, ◌≤◌, ◌↔◌, length, drop, replicate, IsSome, IfSome};

/// A signal plan: a cycle, and for each of 2 to 16 groups the second at which its green starts and
/// how many seconds it lasts.
#[derive(Clone, Copy, Debug, PartialEq, Eq)]
pub struct Plan {
    cycle: u32,
    count: usize,
    starts: [u32; 16],
    greens: [u32; 16],
    pub ghost several: { 2 ≤ count },
    pub ghost few: { count ≤ 16 },
    pub ghost unused_starts: { drop count starts ≡ drop count (replicate 16 0) },
    pub ghost unused_greens: { drop count greens ≡ drop count (replicate 16 0) },
}

impl Plan {
    ghost use Rattle.plan_model.specs.SignalPlan.{plan_with, AreOfGroups};
    ghost use Rattle.plan_model.specs.Plan.{plan_of};

    /// The plan of a cycle with these starts and greens, all in seconds; `None` exactly where the two
    /// lists differ in length or the length is outside 2 to 16.
    pub fn new(cycle: u32, starts: &[u32], greens: &[u32]) -> Option<Plan>
        ensures exactly { IsSome result ↔ AreOfGroups starts.now greens.now }
        ensures value { IfSome result (λ p. plan_of p ≡ plan_with cycle starts.now greens.now) }
    {
        let count = starts.len();
        if greens.len() != count || !(2..=16).contains(&count) {
            return None;
        }
        let mut all_starts = [0u32; 16];
        let mut all_greens = [0u32; 16];
        all_starts[..count].copy_from_slice(starts);
        all_greens[..count].copy_from_slice(greens);
        Some(Plan {
            cycle,
            count,
            starts: all_starts,
            greens: all_greens,
        })
    }

    /// The cycle in seconds.
    pub fn cycle(&self) -> u32
        ensures { result ≡ (plan_of self.now).cycle }
    {
        self.cycle
    }

    /// The second at which each group's green starts.
    pub fn starts(&self) -> &[u32]
        ensures { result.now ≡ (plan_of self.now).starts }
    {
        &self.starts[..self.count]
    }

    /// How many seconds each group's green lasts.
    pub fn greens(&self) -> &[u32]
        ensures { result.now ≡ (plan_of self.now).greens }
    {
        &self.greens[..self.count]
    }
}
