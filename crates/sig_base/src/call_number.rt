ghost use Rattle.std.specs.Prelude.{◌≡◌};
ghost use Rattle.sig_base.specs.FaultCount.{counted_on};
ghost use Rattle.sig_base.specs.CallNumber.{next_number};

/// Counts one more call, and gives its number.
pub fn take_number(calls: &mut u64) -> Option<u64>
    ensures number { result ≡ next_number calls.old }
    ensures count { calls.new ≡ counted_on calls.old }
{
    let number = calls.checked_add(1)?;
    *calls = number;
    Some(number)
}
