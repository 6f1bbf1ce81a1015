// What an assessment is made of: an account's places and settings, and then a source.
ghost use Rattle.std.specs.Prelude.{◌≡◌, ℕ, ◌≤◌, true, length, unsigned_abs};
ghost use Rattle.amounts.specs.Sums.{sum_of};
ghost use Rattle.ledger.specs.declared.terms.Kind.{Kind};
ghost use Rattle.ledger.specs.Settings.{settings_in_range};
ghost use Rattle.ledger.specs.Table.{sound};
ghost use Rattle.margin_rules.specs.Positions.{market_in};

use crate::visits::{Visit, Visits};
use ledger::{Place, Settings};

// The places that an account uses, and its settings.
#[derive(Clone, Copy)]
pub(crate) struct Account<'a> {
    pub(crate) places: &'a [Place],
    pub(crate) settings: &'a Settings,
    ghost few: { length places.now ≤ 4096 },
    ghost sound: { sound places.now ≡ true },
    ghost in_range: { settings_in_range settings.now ≡ true },
}

// An account whose gross market value can be assessed, and the source that it is assessed over.
#[derive(Drop)]
pub(crate) struct Assessable<'a, S> {
    pub(crate) account: Account<'a>,
    pub(crate) source: &'a S,
    ghost small: { (k : Kind) (x : ℕ) → unsigned_abs (sum_of (market_in k x) account.places.now) ≤ 20000000000 },
}

// The market value of a position of such an account, in whole dollars.
#[derive(Clone, Copy)]
pub(crate) struct MarketValue {
    pub(crate) dollars: i64,
    ghost small: { unsigned_abs dollars ≤ 20000000000 },
}

impl<'a> Account<'a> {
    // The visits of its places.
    pub(crate) fn visits<V: Visit>(&self, by: V) -> Visits<'a, V>
        ensures places { result.places.now ≡ self.now.places.now }
        ensures by { result.by ≡ by }
    {
        Visits {
            places: self.places,
            by,
        }
    }
}
