// A stock's returns in the totals of its group.
ghost use Rattle.std.specs.Prelude.{◌≡◌, ◌^◌, ◌≤◌, map, length, pos, ◌+ℤ◌, slice_index_or, unsigned_abs};
ghost use Rattle.std.specs.List.{range_with_len, AllByRecursion};
ghost use Rattle.margin_rules.specs.Portfolio.{scenarios, return_at, rounded_product};

use crate::account::MarketValue;
use crate::adding::add;
use return_source::{ReturnSource, ScenarioSet};

// Adds a stock's market value times its return to the total in each scenario of a set.
pub(crate) fn add_returns<S: ReturnSource>(
    source: &S,
    set: ScenarioSet,
    stock: u32,
    value: MarketValue,
    totals: &mut [i64],
    row: &mut [i32],
)
    requires totals { AllByRecursion (λ t. unsigned_abs t ≤ 2 ^ 62) totals.old }
    requires count { length totals.old ≡ (scenarios (S.meaning source.now) set).count }
    requires room { length totals.old ≤ length row.old }
    ensures { totals.new ≡ map (λ i. slice_index_or totals.old i (pos 0) +ℤ rounded_product value.dollars (return_at ((S.meaning source.now).returns set stock) i)) (range_with_len 0 (length totals.old)) }
{
    if let Ok(n) = source.write_row(set, stock, row) {
        add(totals, &row[..n], value);
    }
}
