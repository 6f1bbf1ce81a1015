// Flat-rate margin: the flat stocks of one rate are set off against one another.
ghost use Rattle.std.specs.Prelude.{◌≡◌, ◌*◌, ◌≤◌, true, pos, ◌*ℤ◌, unsigned_abs};
ghost use Rattle.margin_rules.specs.Positions.{all_stocks};
ghost use Rattle.margin_rules.specs.Charges.{all_rates, flat_of, flat_margin};
ghost use Rattle.margin.specs.Groups.{stock_market};
ghost use Rattle.margin.specs.Visits.{rate_in};

use crate::account::Assessable;
use crate::figures::round_off;
use crate::parts::Part;
use crate::visits::{Visit, stock_of};
use ledger::{Kind, Place};
use return_source::{ReturnSource, Tier};

// The rate of a live entry's stock, where it stands in the flat tier.
fn rate_of<S: ReturnSource>(place: &Place, source: &S) -> Option<u32>
    ensures { result ≡ rate_in (S.meaning source.now) place.now }
{
    let stock = stock_of(place, Kind::Stock)?;
    if source.tier(stock) == Some(Tier::Flat) {
        source.flat_rate(stock)
    } else {
        None
    }
}

// Each rate of the flat tier.
#[derive(Drop)]
struct FlatRates<'a, S> {
    source: &'a S,
}

impl<S: ReturnSource> Visit for FlatRates<'_, S> {
    ghost key_in = { λ it. rate_in (S.meaning it.source.now) };

    ghost counts = { λ it q. true };

    fn key_in(&self, place: &Place) -> Option<u32> {
        rate_of(place, self.source)
    }

    fn counts(&self, _rate: u32) -> bool {
        true
    }
}

// What a sub-category costs, over 10^6.
fn charge(rate: u32, multiplier: u32, side: i64) -> i128
    requires rate { rate ≤ 10000 }
    requires multiplier { multiplier ≤ 400 }
    requires side { unsigned_abs side ≤ 81920000000000 }
    ensures value { result ≡ pos (rate * multiplier) *ℤ side }
    ensures bound { unsigned_abs result ≤ 327680000000000000000 }
{
    i128::from(u64::from(rate) * u64::from(multiplier)) * i128::from(side)
}

// The unit of rate times multiplier.
const CHARGE_UNITS: u64 = 1_000_000;

impl<S: ReturnSource> Assessable<'_, S> {
    // What all sub-categories cost, over 10^6.
    fn flat_sum(&self) -> i128
        ensures value { result ≡ flat_of (S.meaning self.now.source.now) self.now.account.settings.now all_stocks all_rates (stock_market self.now.account.places.now) }
        ensures bound { unsigned_abs result ≤ 1342177280000000000000000 }
    {
        let multiplier = self.account.settings.multiplier;
        let mut sum: i128 = 0;
        let rates = FlatRates {
            source: self.source,
        };
        for rate in self.account.visits(rates) {
            sum += charge(rate, multiplier, self.side(Part::FlatAt(rate)));
        }
        sum
    }

    // Flat-rate margin, in whole dollars.
    pub(crate) fn flat_margin(&self) -> i64
        ensures value { result ≡ flat_margin (S.meaning self.now.source.now) self.now.account.settings.now all_stocks all_rates (stock_market self.now.account.places.now) }
        ensures bound { unsigned_abs result ≤ 1342177280000000000 }
    {
        round_off(self.flat_sum(), CHARGE_UNITS) as i64
    }
}
