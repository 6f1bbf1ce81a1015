// Gross market value.
ghost use Rattle.std.specs.Prelude.{◌≡◌, ◌≤◌, pos, unsigned_abs};
ghost use Rattle.amounts.specs.Sums.{sum_of};
ghost use Rattle.margin_rules.specs.Positions.{all_stocks, market_in, gross_of};

use crate::account::Account;
use ledger::Kind;

// All kinds of instrument, in order.
pub(crate) const KINDS: [Kind; 4] = [Kind::Stock, Kind::Dsp, Kind::Sri, Kind::Div];

impl Account<'_> {
    // The sizes of the market values of a kind's positions.
    fn gross_of_kind(&self, kind: Kind) -> i64
        ensures value { result ≡ sum_of (λ x. pos (unsigned_abs (sum_of (market_in kind x) self.now.places.now))) all_stocks }
        ensures bound { unsigned_abs result ≤ 335544320000000000 }
    {
        let mut gross: i64 = 0;
        for stock in self.visits(kind) {
            gross += self.market_of(kind, stock).abs();
        }
        gross
    }

    // The sizes of all positions' market values.
    pub(crate) fn gross(&self) -> i64
        ensures value { result ≡ gross_of all_stocks (λ k x. sum_of (market_in k x) self.now.places.now) }
        ensures bound { unsigned_abs result ≤ 1342177280000000000 }
    {
        let mut gross: i64 = 0;
        for kind in KINDS {
            gross += self.gross_of_kind(kind);
        }
        gross
    }
}
