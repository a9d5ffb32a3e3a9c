ghost use Rattle.std.specs.Prelude.{◌<◌};
ghost use Rattle.std.specs.Int.{IsGcd};

/// The greatest common divisor, by Euclid's algorithm.
pub fn greatest_divisor(a: u128, b: u128) -> u128
    requires { 0 < b }
    ensures positive { 0 < result }
    ensures greatest { IsGcd a b result }
{
    let mut x = a;
    let mut y = b;
    while y != 0 {
        let rest = x % y;
        x = y;
        y = rest;
    }
    x
}
