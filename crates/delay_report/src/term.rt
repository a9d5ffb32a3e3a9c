ghost use Rattle.std.specs.Prelude.{◌≤◌};

/// A term of a delay, not in lowest terms. Since no flow is above 20000 and no cycle above 300, both
/// parts are at most `(20000 * 300)^2`, which is 36000000000000: so in 128 bits neither the products
/// of two terms' parts nor their sum can overflow.
#[derive(Clone, Copy)]
pub struct Term {
    pub num: u128,
    pub den: u128,
    pub ghost some: { 1 ≤ den },
    pub ghost num_bound: { num ≤ 36000000000000 },
    pub ghost den_bound: { den ≤ 36000000000000 },
}
