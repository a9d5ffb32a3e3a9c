ghost use Rattle.std.specs.Prelude.{◌≡◌, ◌↔◌, IsNone, IsSome, IfSome};
ghost use Rattle.sig_base.specs.Fraction.{over, IsLowest, IsSameFraction, fraction_cmp};

use crate::divisor::greatest_divisor;
use std::cmp::Ordering;

/// A fraction `num / den` in lowest terms, whose denominator is at least 1.
#[derive(Clone, Copy, Debug, PartialEq, Eq)]
pub struct Ratio {
    num: u64,
    den: u64,
    pub ghost lowest: { IsLowest num den },
}

impl Ratio {
    ghost use Rattle.sig_base.specs.Ratio.{fraction_of};

    /// The value of `num / den`, in lowest terms; `None` where `den` is 0. Parts in lowest terms are kept.
    pub fn new(num: u64, den: u64) -> Option<Ratio>
        ensures none { IsNone result ↔ (den ≡ 0) }
        ensures value { IfSome result (λ r. IsSameFraction (fraction_of r) (over num den)) }
        ensures kept { IsLowest num den → IfSome result (λ r. fraction_of r ≡ over num den) }
    {
        if den == 0 {
            return None;
        }
        let divisor = greatest_divisor(num, den);
        Some(Ratio {
            num: num / divisor,
            den: den / divisor,
        })
    }

    /// The fraction of just these parts; `None` exactly where they are not in lowest terms.
    pub fn in_lowest_terms(num: u64, den: u64) -> Option<Ratio>
        ensures exactly { IsSome result ↔ IsLowest num den }
        ensures value { IfSome result (λ r. fraction_of r ≡ over num den) }
    {
        if den == 0 || greatest_divisor(num, den) != 1 {
            return None;
        }
        Some(Ratio { num, den })
    }

    /// The numerator, in lowest terms.
    pub fn num(&self) -> u64
        ensures { result ≡ (fraction_of self.now).num }
    {
        self.num
    }

    /// The denominator, in lowest terms: at least 1.
    pub fn den(&self) -> u64
        ensures { result ≡ (fraction_of self.now).den }
    {
        self.den
    }

    /// Which of the two values is less, exactly, by cross products in 128 bits.
    pub fn compare(&self, other: &Ratio) -> Ordering
        ensures { result ≡ fraction_cmp (fraction_of self.now) (fraction_of other.now) }
    {
        let left = u128::from(self.num) * u128::from(other.den);
        let right = u128::from(other.num) * u128::from(self.den);
        left.cmp(&right)
    }
}
