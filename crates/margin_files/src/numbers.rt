// The numbers of settings and journals: whole numbers, and decimals in the form of the parameter file's.
ghost use Rattle.std.specs.Prelude.{◌≡◌, ◌+◌, ◌*◌, ◌^◌, ◌≤◌, min, IfSome};
ghost use Rattle.margin_files.specs.Numbers.{digit_value, whole_size, whole_number as whole_number_of, or_greatest, hundreds as hundreds_of, four_places as four_places_of, two_places as two_places_of, rate_of, count_of};

use parameter_text::{DecimalRule, Places, Sign};

// The most digits of a whole number: each value fits into 64 bits.
const MOST_DIGITS: usize = 18;

// Four digits, a point and four places reach no further.
const FOUR_PLACES: DecimalRule = DecimalRule {
    places: Places::Four,
    low: -99_999_999,
    high: 99_999_999,
};

// Kept: the library's `to_digit` is of a char and gives 32 bits; with a conversion before and one behind it is no plainer.
fn digit_value(byte: u8) -> Option<u64>
    ensures value { result ≡ digit_value byte }
    ensures small { IfSome result (λ d. d ≤ 9) }
{
    match byte {
        b'0'..=b'9' => Some(u64::from(byte - b'0')),
        _ => None,
    }
}

// The number that one to eighteen digits write.
fn whole_size(digits: &[u8]) -> Option<u64>
    ensures value { result ≡ whole_size digits.now }
    ensures bound { IfSome result (λ n. n + 1 ≤ 10 ^ 18) }
{
    if digits.is_empty() || digits.len() > MOST_DIGITS {
        return None;
    }
    let mut size: u64 = 0;
    for digit in digits {
        size = size * 10 + digit_value(*digit)?;
    }
    Some(size)
}

// The whole number that a cell writes: an optional minus and one to eighteen digits.
#[tactic(auto, unfolding(crate::specs::Numbers::whole_number))]
pub(crate) fn whole_number(cell: &[u8]) -> Option<i64>
    ensures { result ≡ whole_number_of cell.now }
{
    let (sign, digits) = Sign::of(cell);
    Some(sign.with(whole_size(digits)?))
}

// The decimal of at most four places that a cell writes, in ten-thousandths.
#[tactic(auto, unfolding(crate::specs::Numbers::four_places))]
pub(crate) fn four_places(cell: &[u8]) -> Option<i64>
    ensures { result ≡ four_places_of cell.now }
{
    FOUR_PLACES.value(cell).ok()
}

// A hundredth of a number of hundreds.
fn hundreds(number: i64) -> Option<i64>
    ensures { result ≡ hundreds_of number }
{
    (number % 100 == 0).then_some(number / 100)
}

// The decimal of at most two places that a cell writes, in hundredths.
#[tactic(auto, unfolding(crate::specs::Numbers::two_places))]
pub(crate) fn two_places(cell: &[u8]) -> Option<i64>
    ensures { result ≡ two_places_of cell.now }
{
    hundreds(four_places(cell)?)
}

// A number that does not fit becomes the greatest one, which every range refuses.
pub(crate) fn in_u32(number: i64) -> u32
    ensures { result ≡ or_greatest 4294967295 number }
{
    u32::try_from(number).unwrap_or(u32::MAX)
}

// The same for amounts.
// Kept: each of the two is one call of the library's generic conversion; a generic one would be given the greatest number at every call.
pub(crate) fn in_u64(number: i64) -> u64
    ensures { result ≡ or_greatest 18446744073709551615 number }
{
    u64::try_from(number).unwrap_or(u64::MAX)
}

// The rate in ten-thousandths that a text writes, if it is a decimal of at most four places. A rate that does not fit becomes
// the greatest number, which every source refuses.
pub fn rate(text: &[u8]) -> Option<u32>
    ensures { result ≡ rate_of text.now }
{
    Some(in_u32(four_places(text)?))
}

// A number with one digit more behind it, or the greatest number.
fn with_digit(number: usize, digit: u64) -> usize
    ensures { result ≡ min (number * 10 + digit) 18446744073709551615 }
{
    number.saturating_mul(10).saturating_add(digit as usize)
}

// The number that a text of digits writes, however many they are; one that does not fit becomes the greatest that does.
pub fn count(text: &[u8]) -> Option<usize>
    ensures { result ≡ count_of text.now }
{
    if text.is_empty() {
        return None;
    }
    let mut count: usize = 0;
    for byte in text {
        count = with_digit(count, digit_value(*byte)?);
    }
    Some(count)
}
