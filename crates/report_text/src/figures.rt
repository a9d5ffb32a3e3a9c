//! Fractions, as they are printed.
ghost use Rattle.std.specs.Prelude.{◌≡◌, ◌++◌, ◌≤◌, OnOk, option_map};
ghost use Rattle.sig_base.specs.Fraction.{over};
ghost use Rattle.sig_base.specs.Ratio.{fraction_of};
ghost use Rattle.delay_report.specs.WideRatio.{wide_fraction_of};
ghost use Rattle.report_text.specs.Figures.{IsReduced, fraction_text, reserve_size, reserve_text, delay_text};

use delay_report::WideRatio;
use sig_base::{NoMemory, Ratio, put, put_number};

/// `num/den`.
fn put_fraction(text: &mut Vec<u8>, num: u128, den: u128) -> Result<(), NoMemory>
    ensures { OnOk result (text.new.items ≡ text.old.items ++ fraction_text (over num den)) }
{
    put_number(text, num)?;
    put(text, "/")?;
    put_number(text, den)
}

pub fn put_ratio(text: &mut Vec<u8>, ratio: &Ratio) -> Result<(), NoMemory>
    ensures { OnOk result
        (text.new.items ≡ text.old.items ++ fraction_text (fraction_of ratio.now)) }
{
    put_fraction(text, u128::from(ratio.num()), u128::from(ratio.den()))
}

fn put_wide_ratio(text: &mut Vec<u8>, ratio: &WideRatio) -> Result<(), NoMemory>
    ensures { OnOk result
        (text.new.items ≡ text.old.items ++ fraction_text (wide_fraction_of ratio.now)) }
{
    put_fraction(text, ratio.num(), ratio.den())
}

/// The size of the reserve capacity, in per cent.
pub fn reserve(multiplier: &Ratio) -> WideRatio
    ensures { IsReduced (reserve_size (fraction_of multiplier.now)) (wide_fraction_of result) }
{
    let num = u128::from(multiplier.num());
    let den = u128::from(multiplier.den());
    WideRatio::new(100 * num.abs_diff(den), den)
}

/// The reserve capacity of a multiplier, after its sign.
pub fn put_reserve(text: &mut Vec<u8>, multiplier: &Ratio, size: &WideRatio) -> Result<(), NoMemory>
    ensures { OnOk result (text.new.items ≡ text.old.items
        ++ reserve_text (fraction_of multiplier.now) (wide_fraction_of size.now)) }
{
    let below = multiplier.num() < multiplier.den();
    put(text, if below { "-" } else { "" })?;
    put_wide_ratio(text, size)
}

/// The delay in seconds, or `over` for a saturated lane.
pub fn put_delay(text: &mut Vec<u8>, delay: Option<WideRatio>) -> Result<(), NoMemory>
    ensures { OnOk result
        (text.new.items ≡ text.old.items ++ delay_text (option_map wide_fraction_of delay)) }
{
    match delay {
        Some(seconds) => put_wide_ratio(text, &seconds),
        None => put(text, "over"),
    }
}
