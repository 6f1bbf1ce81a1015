// Digits, and the number that they write.
ghost use Rattle.std.specs.Prelude.{◌≡◌, ◌+◌, ◌-◌, ◌*◌, ◌^◌, ◌≤◌, length, take, drop};
ghost use Rattle.std.specs.List.{prefix_len, AllByRecursion};
ghost use Rattle.parameter_text.specs.Digits.{Digit, digit, every, number};
ghost use Rattle.parameter_text.specs.Dates.{sized};

// The digits in front, and what follows them.
pub(crate) fn leading_digits(bytes: &[u8]) -> (&[u8], &[u8])
    ensures digits { result.0.now ≡ take (prefix_len digit bytes.now) bytes.now }
    ensures rest { result.1.now ≡ drop (prefix_len digit bytes.now) bytes.now }
{
    let n = bytes.iter().take_while(|b| b.is_ascii_digit()).count();
    bytes.split_at(n)
}

fn all_digits(bytes: &[u8]) -> bool
    ensures { result ≡ every digit bytes.now }
{
    bytes.iter().all(|b| b.is_ascii_digit())
}

// Are there so many bytes, and is each a digit?
pub(crate) fn is_sized(bytes: &[u8], low: usize, high: usize) -> bool
    ensures { result ≡ sized low high bytes.now }
{
    (low..=high).contains(&bytes.len()) && all_digits(bytes)
}

// The number that at most ten digits write. A byte that is no digit counts too, as much as it is above the digit 0.
pub(crate) fn number_of(bytes: &[u8]) -> u64
    requires { length bytes.now ≤ 10 }
    ensures value { result ≡ number 0 bytes.now }
    ensures bound { result + 23 ≤ 23 * 10 ^ length bytes.now }
    ensures digits { AllByRecursion Digit bytes.now → (result + 1) * 10 ^ (10 - length bytes.now) ≤ 10000000000 }
{
    let mut number = 0;
    for b in bytes {
        number = number * 10 + u64::from(*b).saturating_sub(u64::from(b'0'));
    }
    number
}
