ghost use Rattle.std.specs.Prelude.{◌≡◌, ◌≤◌};
ghost use Rattle.sig_base.specs.Fraction.{over, IsLowest, IsSameFraction};

use crate::divisor::greatest_divisor;

/// A fraction `num / den` in lowest terms, whose denominator is at least 1, with parts of 128 bits.
#[derive(Clone, Copy, Debug, PartialEq, Eq)]
pub struct WideRatio {
    num: u128,
    den: u128,
    pub ghost lowest: { IsLowest num den },
}

impl WideRatio {
    ghost use Rattle.delay_report.specs.WideRatio.{wide_fraction_of};

    /// The value of `num / den`, in lowest terms. Parts in lowest terms are kept.
    pub fn new(num: u128, den: u128) -> WideRatio
        requires { 1 ≤ den }
        ensures value { IsSameFraction (wide_fraction_of result) (over num den) }
        ensures kept { IsLowest num den → wide_fraction_of result ≡ over num den }
    {
        let divisor = greatest_divisor(num, den);
        WideRatio {
            num: num / divisor,
            den: den / divisor,
        }
    }

    /// The numerator, in lowest terms.
    pub fn num(&self) -> u128
        ensures { result ≡ (wide_fraction_of self.now).num }
    {
        self.num
    }

    /// The denominator, in lowest terms: at least 1.
    pub fn den(&self) -> u128
        ensures { result ≡ (wide_fraction_of self.now).den }
    {
        self.den
    }
}
