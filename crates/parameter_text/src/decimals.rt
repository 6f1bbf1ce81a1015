// Decimals: an optional minus, one to four digits, and optionally a point with one to ten digits.
ghost use Rattle.std.specs.Prelude.{◌≡◌, ◌^◌, ◌≤◌, length, take, drop, nat_eq};
ghost use Rattle.std.specs.List.{prefix_len, AllByRecursion};
ghost use Rattle.parameter_text.specs.Digits.{Digit, digit, every};
ghost use Rattle.parameter_text.specs.Signs.{is_minus};
ghost use Rattle.parameter_text.specs.Decimals.{place_count, scaled, minus_in, unsigned_in, pointed, formed, valued, judged, decimal, DecimalsPass};

use super::digits::{is_sized, leading_digits, number_of};
use super::terms::{DecimalRule, Places, Question, Sign};

// Ten to the power of the index.
// Kept: a table, for with `10u64.pow` a file whose returns are spelled with other than eight places takes a quarter more time.
const POWERS: [u64; 11] = [
    1,
    10,
    100,
    1_000,
    10_000,
    100_000,
    1_000_000,
    10_000_000,
    100_000_000,
    1_000_000_000,
    10_000_000_000,
];

impl Places {
    // How many they are.
    fn count(self) -> usize
        ensures value { result ≡ place_count self }
        ensures few { result ≤ 10 }
    {
        match self {
            Places::Four => 4,
            Places::Eight => 8,
            Places::Ten => 10,
        }
    }
}

// Nothing, or a point and one to ten digits.
fn is_pointed(rest: &[u8]) -> bool
    ensures { result ≡ pointed rest.now }
{
    match rest {
        [] => true,
        [b'.', fraction @ ..] => is_sized(fraction, 1, 10),
        _ => false,
    }
}

// The parts of a cell: its sign, the digits in front, and what follows them.
#[derive(Clone, Copy)]
struct Parts<'a> {
    sign: Sign,
    whole: &'a [u8],
    rest: &'a [u8],
}

impl<'a> Parts<'a> {
    fn of(cell: &'a [u8]) -> Parts<'a>
        ensures minus { is_minus result.sign ≡ minus_in cell.now }
        ensures whole { result.whole.now ≡ take (prefix_len digit (unsigned_in cell.now)) (unsigned_in cell.now) }
        ensures rest { result.rest.now ≡ drop (prefix_len digit (unsigned_in cell.now)) (unsigned_in cell.now) }
    {
        let (sign, digits) = Sign::of(cell);
        let (whole, rest) = leading_digits(digits);
        Parts { sign, whole, rest }
    }

    fn are_formed(&self) -> bool
        ensures { result ≡ formed self.now.whole.now self.now.rest.now }
    {
        (1..=4).contains(&self.whole.len()) && is_pointed(self.rest)
    }

    // What follows the point.
    fn fraction(&self) -> &'a [u8]
        ensures { result.now ≡ drop 1 self.now.rest.now }
    {
        match self.rest {
            [] => &[],
            [_, fraction @ ..] => fraction,
        }
    }
}

// Ten to the power of k.
fn power(k: usize) -> u64
    requires { k ≤ 10 }
    ensures value { result ≡ 10 ^ k }
    ensures bound { result ≤ 10000000000 }
{
    POWERS[k]
}

// The size of a decimal in units of its last place.
fn size_of(whole: &[u8], fraction: &[u8], places: usize) -> u64
    requires four { length whole.now ≤ 4 }
    requires places { places ≤ 10 }
    ensures value { result ≡ scaled places whole.now fraction.now }
    ensures bound { result ≤ 3000000000000000 }
    ensures digits { AllByRecursion Digit whole.now → AllByRecursion Digit fraction.now → result ≤ 100020000000000 }
{
    let digits = &fraction[..fraction.len().min(places)];
    let units = number_of(whole) * power(places);
    let rest = number_of(digits) * power(places - digits.len());
    units + rest
}

// Are there only zeros beyond so many places?
fn fits(fraction: &[u8], places: usize) -> bool
    ensures { result ≡ every (nat_eq 48) (drop places fraction.now) }
{
    fraction.iter().skip(places).all(|b| *b == b'0')
}

impl DecimalRule {
    // A value, or that it is out of range or has too many places.
    fn in_range(&self, fraction: &[u8], value: i64) -> Result<i64, Question>
        ensures { result ≡ valued (place_count self.now.places) self.now.low self.now.high fraction.now value }
    {
        if fits(fraction, self.places.count()) && (self.low..=self.high).contains(&value) {
            Ok(value)
        } else {
            Err(Question::Range)
        }
    }

    // What a cell in its parts is worth.
    fn judged(&self, parts: Parts<'_>) -> Result<i64, Question>
        ensures value { result ≡ judged (place_count self.now.places) self.now.low self.now.high (is_minus parts.entry.sign) parts.entry.whole.now parts.entry.rest.now }
        ensures law { DecimalsPass }
    {
        if !parts.are_formed() {
            return Err(Question::Form);
        }
        let fraction = parts.fraction();
        let size = size_of(parts.whole, fraction, self.places.count());
        self.in_range(fraction, parts.sign.with_small(size))
    }

    // What a cell is worth in units of the last place, or the question that it fails.
    pub fn value(&self, cell: &[u8]) -> Result<i64, Question>
        ensures value { result ≡ decimal (place_count self.now.places) self.now.low self.now.high cell.now }
        ensures law { DecimalsPass }
    {
        self.judged(Parts::of(cell))
    }
}
