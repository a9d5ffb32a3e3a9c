ghost use Rattle.std.specs.Prelude.{◌≡◌, ◌≤◌, ◌<◌};
ghost use Rattle.sample_junctions.specs.Draws.{first_state, next_state, draw};

const MULTIPLIER: u64 = 1103515245;

const INCREMENT: u64 = 12345;

const MODULUS: u64 = 1 << 31;

/// A draw is what a state has above its lowest 16 bits, which repeat themselves too soon.
const LOW_PART: u32 = 1 << 16;

/// A linear congruential generator, by its state. The multiplier and the increment are those of the
/// example of `rand` in the C standard.
#[derive(Drop)]
pub struct Draws {
    pub state: u32,
}

impl Draws {
    /// The draws of a sample's number.
    pub fn new(number: u32) -> Draws
        ensures { result.state ≡ first_state number }
    {
        Draws {
            state: (u64::from(number) % MODULUS) as u32,
        }
    }

    /// The next draw of a number below `end`.
    pub fn below(&mut self, end: u32) -> u32
        requires { 1 ≤ end }
        ensures value { result ≡ draw self.old.state 0 end }
        ensures state { self.new.state ≡ next_state self.old.state }
        ensures below { result < end }
    {
        let next = (MULTIPLIER * u64::from(self.state) + INCREMENT) % MODULUS;
        self.state = next as u32;
        self.state / LOW_PART % end
    }
}
