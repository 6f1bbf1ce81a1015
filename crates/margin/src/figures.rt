// The steps from the margins to the total, in whole dollars.
ghost use Rattle.std.specs.Prelude.{◌≡◌, ◌+◌, ◌*◌, ◌^◌, ◌<◌, ◌≤◌, pos, ◌*ℤ◌, unsigned_abs};
ghost use Rattle.amounts.specs.Rounding.{nearest, round_off, round_up_int};
ghost use Rattle.amounts.specs.Charges.{long, short};
ghost use Rattle.margin_rules.specs.Requirement.{less};

// A holiday factor is told in ten-billionths.
const FACTOR_UNITS: u64 = 10_000_000_000;

// A number over a unit, to the nearest whole number, a half upwards.
fn nearest(n: u128, unit: u128) -> u128
    requires size { n ≤ 10 ^ 30 }
    requires some { 0 < unit }
    requires few { unit ≤ 10 ^ 12 }
    ensures { result ≡ nearest unit n }
{
    (2 * n + unit) / (2 * unit)
}

// An amount over a unit, to the nearest whole number, a half away from zero.
pub(crate) fn round_off(amount: i128, unit: u64) -> i128
    requires size { unsigned_abs amount ≤ 10 ^ 30 }
    requires some { 0 < unit }
    requires few { unit ≤ 10 ^ 12 }
    ensures { result ≡ round_off unit amount }
{
    let size = nearest(amount.unsigned_abs(), u128::from(unit)) as i128;
    if amount < 0 { -size } else { size }
}

// An amount times a factor.
pub(crate) fn product(factor: u64, amount: i64) -> i128
    requires { factor ≤ 10000000000 }
    ensures value { result ≡ pos factor *ℤ amount }
    ensures bound { unsigned_abs result ≤ factor * unsigned_abs amount }
{
    i128::from(factor) * i128::from(amount)
}

// Holiday margin on portfolio and flat-rate margin together.
pub(crate) fn holiday_margin(factor: u64, charged: i64) -> i64
    requires factor { factor ≤ 10000000000 }
    requires size { unsigned_abs charged ≤ 4000000000000000000 }
    ensures value { result ≡ round_off (10 ^ 10) (pos factor *ℤ charged) }
    ensures bound { unsigned_abs result ≤ unsigned_abs charged }
{
    round_off(product(factor, charged), FACTOR_UNITS) as i64
}

// The least multiple of the step that is at least an amount.
pub(crate) fn round_up(step: u32, amount: i64) -> i64
    requires some { 0 < step }
    requires few { step ≤ 1000000 }
    requires size { unsigned_abs amount ≤ 2 ^ 62 }
    ensures value { result ≡ round_up_int step amount }
    ensures bound { unsigned_abs result ≤ unsigned_abs amount + 1000000 }
{
    let step = u64::from(step);
    let size = amount.unsigned_abs();
    if amount < 0 {
        -((size / step * step) as i64)
    } else {
        ((size + (step - 1)) / step * step) as i64
    }
}

// What is long of an amount: a favourable mark.
pub(crate) fn long_of(amount: i64) -> i64
    ensures value { result ≡ long amount }
    ensures bound { unsigned_abs result ≤ unsigned_abs amount }
{
    amount.max(0)
}

// What is short of an amount: the size of an unfavourable mark.
pub(crate) fn short_of(amount: i64) -> i64
    requires { unsigned_abs amount ≤ 2 ^ 62 }
    ensures value { result ≡ short amount }
    ensures bound { unsigned_abs result ≤ unsigned_abs amount }
{
    (-amount).max(0)
}

// What is left of an amount after a deduction, at least 0.
pub(crate) fn less(amount: i64, deduction: i64) -> i64
    requires amount { unsigned_abs amount ≤ 4000000000000000000 }
    requires deduction { unsigned_abs deduction ≤ 4000000000000000000 }
    ensures value { result ≡ less amount deduction }
    ensures bound { unsigned_abs result ≤ unsigned_abs amount + unsigned_abs deduction }
{
    (amount - deduction).max(0)
}
