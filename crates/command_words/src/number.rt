ghost use Rattle.std.specs.Prelude.{◌≡◌, ◌≤◌, IfSome};
ghost use Rattle.std.specs.Char.{is_ascii_digit};
ghost use Rattle.std.specs.List.{list_all};
ghost use Rattle.command_words.specs.Number.{is_numeral, number_in};

fn are_digits(bytes: &[u8]) -> bool
    ensures { result ≡ list_all is_ascii_digit bytes.now }
{
    bytes.iter().all(|byte| byte.is_ascii_digit())
}

/// Whether a word is one or more digits, of which only `0` itself begins with a 0.
fn is_numeral(word: &str) -> bool
    ensures { result ≡ is_numeral word.now }
{
    match word.as_bytes() {
        [] => false,
        [digit] => digit.is_ascii_digit(),
        [first, ..] => *first != b'0' && are_digits(word.as_bytes()),
    }
}

/// The number from `low` to `high` that a word spells; `None` where it spells none.
pub fn read_number(word: &str, low: u64, high: u64) -> Option<u64>
    ensures value { result ≡ number_in low high word.now }
    ensures in_range { IfSome result (λ number. (low ≤ number) × (number ≤ high)) }
{
    if !is_numeral(word) {
        return None;
    }
    match word.parse::<u64>() {
        Ok(number) if low <= number && number <= high => Some(number),
        _ => None,
    }
}
