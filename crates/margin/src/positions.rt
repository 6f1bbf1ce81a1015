// The positions of an account.
ghost use Rattle.std.specs.Prelude.{◌≡◌, ◌≤◌, true, unsigned_abs};
ghost use Rattle.amounts.specs.Sums.{sum_of};
ghost use Rattle.ledger.specs.Table.{sound_place};
ghost use Rattle.margin_rules.specs.Positions.{market_in, mark_in};
ghost use Rattle.margin.specs.Positions.{part, position};

use crate::account::{Account, Assessable, MarketValue};
use ledger::{Instrument, Kind, Place};

// The sums of an instrument's live entries, values in whole dollars.
#[derive(Clone, Copy)]
pub struct Position {
    pub quantity: i64,
    pub contract_value: i64,
    pub market_value: i64,
}

const NO_POSITION: Position = Position {
    quantity: 0,
    contract_value: 0,
    market_value: 0,
};

// What a place adds to the position of an instrument.
fn part_of(place: &Place, kind: Kind, stock: u32) -> Position
    ensures { result ≡ part kind stock place.now }
{
    match place {
        Place::Live { entry, .. } if (Instrument { kind, stock }).is(entry.instrument) => Position {
            quantity: entry.quantity,
            contract_value: entry.contract_value,
            market_value: entry.market_value,
        },
        _ => NO_POSITION,
    }
}

// What a place adds to the mark.
fn mark_in(place: &Place) -> i64
    requires { sound_place place.now ≡ true }
    ensures value { result ≡ mark_in place.now }
    ensures bound { unsigned_abs result ≤ 40000000000 }
{
    match place {
        Place::Live { entry, .. } => entry.market_value - entry.contract_value,
        Place::Free | Place::Cancelled { .. } => 0,
    }
}

impl Account<'_> {
    // The position of an instrument, all zeros where it is not held.
    pub(crate) fn position_of(&self, kind: Kind, stock: u32) -> Position
        ensures value { result ≡ position kind stock self.now.places.now }
        ensures quantity { unsigned_abs result.quantity ≤ 81920000000000 }
        ensures contract_value { unsigned_abs result.contract_value ≤ 81920000000000 }
        ensures market_value { unsigned_abs result.market_value ≤ 81920000000000 }
    {
        // Kept: the project has this loop over the table's elements, as a sum of signed numbers leaves its bound open.
        let mut sums = NO_POSITION;
        for place in self.places {
            let part = part_of(place, kind, stock);
            sums.quantity += part.quantity;
            sums.contract_value += part.contract_value;
            sums.market_value += part.market_value;
        }
        sums
    }

    // The market value of a position.
    pub(crate) fn market_of(&self, kind: Kind, stock: u32) -> i64
        ensures value { result ≡ sum_of (market_in kind stock) self.now.places.now }
        ensures bound { unsigned_abs result ≤ 81920000000000 }
    {
        self.position_of(kind, stock).market_value
    }

    // All market value less all contract value.
    pub(crate) fn mark(&self) -> i64
        ensures value { result ≡ sum_of mark_in self.now.places.now }
        ensures bound { unsigned_abs result ≤ 163840000000000 }
    {
        let mut sum: i64 = 0;
        for place in self.places {
            sum += mark_in(place);
        }
        sum
    }
}

impl<S> Assessable<'_, S> {
    // The market value of a position of an account that can be assessed.
    pub(crate) fn market_of(&self, kind: Kind, stock: u32) -> MarketValue
        ensures value { result.dollars ≡ sum_of (market_in kind stock) self.now.account.places.now }
    {
        MarketValue {
            dollars: self.account.market_of(kind, stock),
        }
    }
}
