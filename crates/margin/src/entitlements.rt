// Corporate-action margin: each entitlement at the percentage of its side.
ghost use Rattle.std.specs.Prelude.{◌≡◌, ◌≤◌, unsigned_abs};
ghost use Rattle.std.specs.Option.{option_map};
ghost use Rattle.amounts.specs.Sums.{sum_of};
ghost use Rattle.amounts.specs.Charges.{sided};
ghost use Rattle.return_source.specs.Meaning.{numbers_of};
ghost use Rattle.margin_rules.specs.Positions.{market_in, all_stocks};
ghost use Rattle.margin_rules.specs.Charges.{entitlement_of, corporate_of, corporate_margin};
ghost use Rattle.margin.specs.Costs.{charged_at};
ghost use Rattle.margin.specs.EntitlementTypes.{entitlement_type};

use crate::account::{Assessable, MarketValue};
use crate::figures::round_off;
use ledger::Kind;
use return_source::{EntitlementType, ReturnSource};

// The type of entitlement that a kind is, if it is one.
pub(crate) fn entitlement_type(kind: Kind) -> Option<EntitlementType>
    ensures { result ≡ entitlement_type kind }
{
    match kind {
        Kind::Stock => None,
        Kind::Dsp => Some(EntitlementType::Dsp),
        Kind::Sri => Some(EntitlementType::Sri),
        Kind::Div => Some(EntitlementType::Div),
    }
}

// The price, and the short and the long percentage, of the entitlement that an instrument is.
#[tactic(auto, using(crate::proofs::EntitlementLaws::of_no_type, crate::proofs::EntitlementLaws::of_type))]
fn entitlement_of<S: ReturnSource>(source: &S, kind: Kind, stock: u32) -> Option<(u32, (u32, u32))>
    ensures { result ≡ option_map numbers_of (entitlement_of (S.meaning source.now) kind stock) }
{
    source.entitlement(entitlement_type(kind)?, stock)
}

// A market value at the percentage of its side, in ten-thousandths of a dollar.
fn charge(value: MarketValue, short: u32, long: u32) -> i64
    requires short { short ≤ 40000 }
    requires long { long ≤ 40000 }
    ensures value { result ≡ sided long short value.dollars }
    ensures bound { unsigned_abs result ≤ 800000000000000 }
{
    let dollars = value.dollars;
    if dollars > 0 {
        dollars * i64::from(long)
    } else {
        -dollars * i64::from(short)
    }
}

// What a market value costs as an entitlement of an instrument.
fn charge_of<S: ReturnSource>(source: &S, kind: Kind, stock: u32, value: MarketValue) -> i64
    ensures value { result ≡ charged_at (entitlement_of (S.meaning source.now) kind stock) value.dollars }
    ensures bound { unsigned_abs result ≤ 800000000000000 }
{
    match entitlement_of(source, kind, stock) {
        None => 0,
        Some((_price, (short, long))) => charge(value, short, long),
    }
}

// The unit of a percentage.
const PERCENTAGE_UNITS: u64 = 10_000;

impl<S: ReturnSource> Assessable<'_, S> {
    // What all positions of one kind cost, over 10^4.
    fn kind_cost(&self, kind: Kind) -> i128
        ensures value { result ≡ sum_of (λ x. charged_at (entitlement_of (S.meaning self.now.source.now) kind x) (sum_of (market_in kind x) self.now.account.places.now)) all_stocks }
        ensures bound { unsigned_abs result ≤ 3276800000000000000 }
    {
        let mut sum: i128 = 0;
        for stock in self.account.visits(kind) {
            let value = self.market_of(kind, stock);
            sum += i128::from(charge_of(self.source, kind, stock, value));
        }
        sum
    }

    // What all entitlements cost, over 10^4.
    fn corporate_sum(&self) -> i128
        ensures value { result ≡ corporate_of (S.meaning self.now.source.now) all_stocks (λ k x. sum_of (market_in k x) self.now.account.places.now) }
        ensures bound { unsigned_abs result ≤ 9830400000000000000 }
    {
        self.kind_cost(Kind::Dsp) + self.kind_cost(Kind::Sri) + self.kind_cost(Kind::Div)
    }

    // Corporate-action margin, in whole dollars.
    pub(crate) fn corporate_margin(&self) -> i64
        ensures value { result ≡ corporate_margin (S.meaning self.now.source.now) all_stocks (λ k x. sum_of (market_in k x) self.now.account.places.now) }
        ensures bound { unsigned_abs result ≤ 983040000000000 }
    {
        round_off(self.corporate_sum(), PERCENTAGE_UNITS) as i64
    }
}
