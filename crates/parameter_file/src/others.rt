// Rows of one or four cells: a flat rate, and an entitlement.
ghost use Rattle.std.specs.Prelude.{◌≡◌, ℕ, ◌≤◌, [], ℤ, unsigned_abs};
ghost use Rattle.parameter_text.specs.Questions.{both as both_of, seen_as};
ghost use Rattle.parameter_text.specs.Decimals.{decimal, place_count};
ghost use Rattle.parameter_text.specs.Left.{cells_left};
ghost use Rattle.file_rules.specs.Judged.{type_cell, rate_content, right_cells, right_content};
ghost use Rattle.parameter_file.specs.declared.terms.Found.{Found as TheFound};
ghost use Rattle.parameter_file.specs.Table.{held};

use super::terms::Found;
use parameter_text::{Cells, DecimalRule, IntegerRule, Places, Question};
use return_source::{Entitlement, EntitlementType};

// 0 to 1.
const RATE: DecimalRule = DecimalRule {
    places: Places::Four,
    low: 0,
    high: 10_000,
};

// 0 to 9,999.
const PRICE: DecimalRule = DecimalRule {
    places: Places::Four,
    low: 0,
    high: 99_990_000,
};

// -4 to 4.
const PERCENTAGE: DecimalRule = DecimalRule {
    places: Places::Four,
    low: -40_000,
    high: 40_000,
};

const TYPES: IntegerRule = IntegerRule { low: 1, high: 3 };

// Two things judged side by side: the first question that either fails.
// Kept: where both fail the sooner question counts, and `?` or `and` would take the first of the two.
pub(crate) fn both<X: Drop, Y: Drop>(
    a: Result<X, Question>,
    b: Result<Y, Question>,
) -> Result<(X, Y), Question>
    ensures { result ≡ both_of (λ (x : X) (y : Y). (x, y)) a b }
{
    match (a, b) {
        (Ok(x), Ok(y)) => Ok((x, y)),
        (Ok(_), Err(q)) => Err(q),
        (Err(p), Ok(_)) => Err(p),
        (Err(p), Err(q)) => Err(p.sooner(q)),
    }
}

// The size of a value in units of its last place.
fn size(rule: &DecimalRule, cell: &[u8]) -> Result<u32, Question>
    requires low { unsigned_abs rule.now.low ≤ 99990000 }
    requires high { unsigned_abs rule.now.high ≤ 99990000 }
    ensures { result ≡ seen_as unsigned_abs (decimal (place_count rule.now.places) rule.now.low rule.now.high cell.now) }
{
    Ok(rule.value(cell)?.unsigned_abs() as u32)
}

// The type of entitlement that a cell writes.
fn entitlement_type(cell: &[u8]) -> Result<EntitlementType, Question>
    ensures { result ≡ type_cell cell.now }
{
    TYPES.number(cell).map(|number| match number {
        1 => EntitlementType::Dsp,
        2 => EntitlementType::Sri,
        _ => EntitlementType::Div,
    })
}

// A flat rate from the cells that are left.
pub(crate) fn flat_rate(mut cells: Cells<'_>) -> Result<Found, Question>
    ensures { seen_as (λ (f : TheFound). held f []) result ≡ rate_content (cells_left cells.entry) }
{
    let cell = cells.next().ok_or(Question::Cells)?;
    if !cells.are_empty() {
        return Err(Question::Cells);
    }
    size(&RATE, cell).map(Found::Rate)
}

// An entitlement by its four cells.
fn right(kind: &[u8], price: &[u8], short: &[u8], long: &[u8]) -> Result<Found, Question>
    ensures { seen_as (λ (f : TheFound). held f []) result ≡ right_cells kind.now price.now short.now long.now }
{
    let percentages = both(size(&PERCENTAGE, short), size(&PERCENTAGE, long));
    let priced = both(size(&PRICE, price), percentages);
    let (kind, (price, (short, long))) = both(entitlement_type(kind), priced)?;
    Ok(Found::Right(kind, Entitlement { price, short, long }))
}

// An entitlement from the cells that are left.
pub(crate) fn entitlement(mut cells: Cells<'_>) -> Result<Found, Question>
    ensures { seen_as (λ (f : TheFound). held f []) result ≡ right_content (cells_left cells.entry) }
{
    let kind = cells.next().ok_or(Question::Cells)?;
    let price = cells.next().ok_or(Question::Cells)?;
    let short = cells.next().ok_or(Question::Cells)?;
    let long = cells.next().ok_or(Question::Cells)?;
    if !cells.are_empty() {
        return Err(Question::Cells);
    }
    right(kind, price, short, long)
}
