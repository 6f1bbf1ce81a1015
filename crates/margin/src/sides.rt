// The greater side of a part of the positions.
ghost use Rattle.std.specs.Prelude.{◌≡◌, ◌≤◌, unsigned_abs};
ghost use Rattle.margin_rules.specs.Positions.{all_stocks};
ghost use Rattle.margin_rules.specs.Portfolio.{side_of};
ghost use Rattle.margin.specs.Groups.{stock_market};
ghost use Rattle.margin.specs.Parts.{belongs};

use crate::account::Assessable;
use crate::figures::{long_of, short_of};
use crate::parts::Part;
use ledger::Kind;
use return_source::ReturnSource;

impl<S: ReturnSource> Assessable<'_, S> {
    // The greater of the long and the short market value of a part.
    pub(crate) fn side(&self, part: Part) -> i64
        ensures value { result ≡ side_of all_stocks (belongs (S.meaning self.now.source.now) self.now.account.settings.now part) (stock_market self.now.account.places.now) }
        ensures bound { unsigned_abs result ≤ 81920000000000 }
    {
        let mut long: i64 = 0;
        let mut short: i64 = 0;
        for stock in self.visits_in(part) {
            let value = self.market_of(Kind::Stock, stock);
            long += long_of(value.dollars);
            short += short_of(value.dollars);
        }
        long.max(short)
    }
}
