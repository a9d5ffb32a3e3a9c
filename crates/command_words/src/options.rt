ghost use Rattle.std.specs.Prelude.{◌≡◌, ◌≤◌, [], ◌∷◌, Some, option_map, IfSome};
ghost use Rattle.sig_base.specs.Ratio.{fraction_of};
ghost use Rattle.command_words.specs.Words.{texts};
ghost use Rattle.command_words.specs.Options.{default_least, budget_in, both_of, options_of};
ghost use Rattle.command_words.specs.OptionsOf.{options_view};
ghost use Rattle.command_words.specs.InRange.{IsLeast, AreOptions};

use crate::multiple::read_multiple;
use crate::number::read_number;
use sig_base::Ratio;

const DEFAULT_BUDGET: u64 = 200_000;

/// The least multiple that a plan has to carry, and the most nodes that a search may visit.
#[derive(Clone, Copy)]
pub struct Options {
    pub least: Ratio,
    pub budget: u64,
}

fn default_least() -> Option<Ratio>
    ensures value { option_map fraction_of result ≡ Some default_least }
    ensures in_range { IfSome result (λ r. IsLeast (fraction_of r)) }
{
    Ratio::new(1, 1)
}

fn read_budget(word: &str) -> Option<u64>
    ensures value { result ≡ budget_in word.now }
    ensures some { IfSome result (λ budget. 1 ≤ budget) }
{
    read_number(word, 1, u64::MAX)
}

/// Both, where each of them is there.
fn with_both(least: Option<Ratio>, budget: Option<u64>) -> Option<Options>
    requires least { IfSome least (λ r. IsLeast (fraction_of r)) }
    requires some { IfSome budget (λ nodes. 1 ≤ nodes) }
    ensures value { option_map options_view result ≡ both_of (option_map fraction_of least) budget }
    ensures in_range { IfSome result (λ o. AreOptions (fraction_of o.least) o.budget) }
{
    Some(Options {
        least: least?,
        budget: budget?,
    })
}

/// The options `key value`.
fn read_option(key: &str, value: &str) -> Option<Options>
    ensures value { option_map options_view result ≡ options_of (key.now ∷ value.now ∷ []) }
    ensures in_range { IfSome result (λ o. AreOptions (fraction_of o.least) o.budget) }
{
    match key {
        "--least" => with_both(read_multiple(value), Some(DEFAULT_BUDGET)),
        "--budget" => with_both(default_least(), read_budget(value)),
        _ => None,
    }
}

/// The options `first one second other`.
fn read_both(first: &str, one: &str, second: &str, other: &str) -> Option<Options>
    ensures value { option_map options_view result ≡
        options_of (first.now ∷ one.now ∷ second.now ∷ other.now ∷ []) }
    ensures in_range { IfSome result (λ o. AreOptions (fraction_of o.least) o.budget) }
{
    if first == "--least" && second == "--budget" {
        with_both(read_multiple(one), read_budget(other))
    } else if first == "--budget" && second == "--least" {
        with_both(read_multiple(other), read_budget(one))
    } else {
        None
    }
}

/// The options that words spell; `None` where they spell none.
pub fn read_options(words: &[String]) -> Option<Options>
    ensures value { option_map options_view result ≡ options_of (texts words.now) }
    ensures in_range { IfSome result (λ o. AreOptions (fraction_of o.least) o.budget) }
{
    match words {
        [] => with_both(default_least(), Some(DEFAULT_BUDGET)),
        [key, value] => read_option(key.as_str(), value.as_str()),
        [first, one, second, other] => read_both(
            first.as_str(),
            one.as_str(),
            second.as_str(),
            other.as_str(),
        ),
        _ => None,
    }
}
