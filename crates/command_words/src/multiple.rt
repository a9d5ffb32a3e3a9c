ghost use Rattle.std.specs.Prelude.{◌≡◌, ◌≤◌, Some, option_map, IfSome};
ghost use Rattle.sig_base.specs.Ratio.{fraction_of};
ghost use Rattle.command_words.specs.Multiple.{greatest_part, in_lowest_terms, multiple_in};
ghost use Rattle.command_words.specs.InRange.{IsLeast};

use crate::number::read_number;
use sig_base::Ratio;

const GREATEST_PART: u64 = 1_000_000;

fn in_lowest_terms(num: u64, den: u64) -> Option<Ratio>
    requires num { num ≤ greatest_part }
    requires den { den ≤ greatest_part }
    requires some { 1 ≤ den }
    ensures value { option_map fraction_of result ≡ Some (in_lowest_terms num den) }
    ensures in_range { IfSome result (λ r. IsLeast (fraction_of r)) }
{
    Ratio::new(num, den)
}

/// The multiple that a word `N/D` spells, in lowest terms; `None` where it spells none.
pub fn read_multiple(word: &str) -> Option<Ratio>
    ensures value { option_map fraction_of result ≡ multiple_in word.now }
    ensures in_range { IfSome result (λ r. IsLeast (fraction_of r)) }
{
    let Some((num, den)) = word.split_once('/') else {
        return None;
    };
    let num = read_number(num, 0, GREATEST_PART)?;
    let den = read_number(den, 1, GREATEST_PART)?;
    in_lowest_terms(num, den)
}
