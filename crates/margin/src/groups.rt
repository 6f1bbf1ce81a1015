// The groups of the portfolio tier and their tails.
// Kept: the three lent sheets stay parameters of their own: in a struct two of them cannot be lent at once ("a call keeps the loan of a slice in a field while another field is used").
ghost use Rattle.std.specs.Prelude.{◌≡◌, ◌≤◌, length, unsigned_abs};
ghost use Rattle.std.specs.List.{AllByRecursion};
ghost use Rattle.amounts.specs.Sums.{sum_of, when};
ghost use Rattle.amounts.specs.Tails.{tail_sum};
ghost use Rattle.margin_rules.specs.Positions.{all_stocks};
ghost use Rattle.margin_rules.specs.Portfolio.{scenarios, rounded_product, is_own, common_totals, own_totals, tails_of};
ghost use Rattle.margin.specs.Groups.{held_stocks, stock_market};

use crate::account::{Assessable, MarketValue};
use crate::parts::Part;
use crate::returns::add_returns;
use crate::tails::tail_sum;
use ledger::Kind;
use margin_rules::Outcome;
use return_source::{ReturnSource, ScenarioSet};

// The totals of a stock by itself.
fn own_totals<S: ReturnSource>(
    source: &S,
    set: ScenarioSet,
    stock: u32,
    value: MarketValue,
    totals: &mut [i64],
    row: &mut [i32],
)
    requires count { length totals.old ≡ (scenarios (S.meaning source.now) set).count }
    requires room { length totals.old ≤ length row.old }
    ensures value { totals.new ≡ own_totals rounded_product (S.meaning source.now) set (λ x. value.dollars) stock }
    ensures bound { AllByRecursion (λ t. unsigned_abs t ≤ 80000000000) totals.new }
{
    totals.fill(0);
    add_returns(source, set, stock, value, totals, row);
}

impl<S: ReturnSource> Assessable<'_, S> {
    // The totals of the common group in a set of scenarios.
    fn common_totals(&self, set: ScenarioSet, totals: &mut [i64], row: &mut [i32])
        requires count { length totals.old ≡ (scenarios (S.meaning self.now.source.now) set).count }
        requires room { length totals.old ≤ length row.old }
        ensures value { totals.new ≡ common_totals rounded_product (S.meaning self.now.source.now) self.now.account.settings.now (held_stocks self.now.account.places.now) set (stock_market self.now.account.places.now) }
        ensures bound { AllByRecursion (λ t. unsigned_abs t ≤ 400000000000000) totals.new }
    {
        totals.fill(0);
        for stock in self.visits_in(Part::Common) {
            let value = self.market_of(Kind::Stock, stock);
            add_returns(self.source, set, stock, value, totals, row);
        }
    }

    // The tail sum of a stock by itself.
    fn own_tail(
        &self,
        set: ScenarioSet,
        stock: u32,
        totals: &mut [i64],
        row: &mut [i32],
        tail: &mut [Outcome],
    ) -> i64
        requires count { length totals.old ≡ (scenarios (S.meaning self.now.source.now) set).count }
        requires room { length totals.old ≤ length row.old }
        requires places { length tail.old ≡ (scenarios (S.meaning self.now.source.now) set).tail }
        ensures value { result ≡ tail_sum (scenarios (S.meaning self.now.source.now) set).tail (own_totals rounded_product (S.meaning self.now.source.now) set (stock_market self.now.account.places.now) stock) }
        ensures bound { unsigned_abs result ≤ 8000000000000 }
    {
        let value = self.market_of(Kind::Stock, stock);
        own_totals(self.source, set, stock, value, totals, row);
        tail_sum(tail, totals)
    }

    // The tail sums of all groups of one stock together.
    fn own_tails(
        &self,
        set: ScenarioSet,
        totals: &mut [i64],
        row: &mut [i32],
        tail: &mut [Outcome],
    ) -> i64
        requires count { length totals.old ≡ (scenarios (S.meaning self.now.source.now) set).count }
        requires room { length totals.old ≤ length row.old }
        requires places { length tail.old ≡ (scenarios (S.meaning self.now.source.now) set).tail }
        ensures value { result ≡ sum_of (λ x. when (is_own (S.meaning self.now.source.now) self.now.account.settings.now x) (tail_sum (scenarios (S.meaning self.now.source.now) set).tail (own_totals rounded_product (S.meaning self.now.source.now) set (stock_market self.now.account.places.now) x))) (held_stocks self.now.account.places.now) }
        ensures bound { unsigned_abs result ≤ 40000000000000000 }
    {
        let mut sum: i64 = 0;
        for stock in self.visits_in(Part::Own) {
            sum += self.own_tail(set, stock, totals, row, tail);
        }
        sum
    }

    // The tail sums of all groups together, in a set of scenarios.
    pub(crate) fn set_tails(
        &self,
        set: ScenarioSet,
        totals: &mut [i64],
        row: &mut [i32],
        tail: &mut [Outcome],
    ) -> i64
        requires count { length totals.old ≡ (scenarios (S.meaning self.now.source.now) set).count }
        requires room { length totals.old ≤ length row.old }
        requires places { length tail.old ≡ (scenarios (S.meaning self.now.source.now) set).tail }
        ensures value { result ≡ tails_of rounded_product (S.meaning self.now.source.now) self.now.account.settings.now all_stocks set (stock_market self.now.account.places.now) }
        ensures bound { unsigned_abs result ≤ 80000000000000000 }
    {
        self.common_totals(set, totals, row);
        let common = tail_sum(tail, totals);
        let own = self.own_tails(set, totals, row, tail);
        common + own
    }
}
