// The scenario totals of a group: market value times return, each product rounded off.
ghost use Rattle.std.specs.Prelude.{◌≡◌, ℕ, ◌+◌, ◌*◌, ◌/◌, ◌^◌, ◌<◌, ◌≤◌, length, ℤ, pos, ◌+ℤ◌, ◌*ℤ◌, unsigned_abs};
ghost use Rattle.std.specs.List.{AllByRecursion};
ghost use Rattle.amounts.specs.Rounding.{round_off};
ghost use Rattle.margin.specs.Adding.{with_products};

use crate::account::MarketValue;

// A return is told in hundred-millionths.
const RETURN_UNITS: i64 = 100_000_000;

// Hundred-millionths of a dollar as dollars, rounded off.
// Kept: each return of each position comes here, and over any unit, as in `figures::round_off`, it would divide 128 bits.
fn dollars(n: i64) -> i64
    requires { unsigned_abs n ≤ 8000000000000000000 }
    ensures value { result ≡ round_off (10 ^ 8) n }
    ensures bound { unsigned_abs result ≤ 80000000000 }
{
    if n >= 0 {
        (n + RETURN_UNITS / 2) / RETURN_UNITS
    } else {
        (n - RETURN_UNITS / 2) / RETURN_UNITS
    }
}

// What a market value gains at a return.
pub(crate) fn rounded_product(value: MarketValue, ret: i32) -> i64
    requires ret { unsigned_abs ret ≤ 400000000 }
    ensures value { result ≡ round_off (10 ^ 8) (value.dollars *ℤ ret) }
    ensures bound { unsigned_abs result ≤ 80000000000 }
{
    dollars(value.dollars * i64::from(ret))
}

// Adds to each total the rounded product of a market value and the scenario's return.
pub(crate) fn add(totals: &mut [i64], row: &[i32], value: MarketValue)
    requires returns { AllByRecursion (λ r. unsigned_abs r ≤ 400000000) row.now }
    requires totals { AllByRecursion (λ t. unsigned_abs t ≤ 2 ^ 62) totals.old }
    requires room { length row.now ≤ length totals.old }
    ensures { totals.new ≡ with_products value.dollars row.now totals.old }
{
    // Kept: over `totals.iter_mut().zip(row)` a proof knows nothing of what the loop wrote, as of each adapter of `iter_mut`.
    for (i, ret) in row.iter().enumerate() {
        totals[i] += rounded_product(value, *ret);
    }
}
