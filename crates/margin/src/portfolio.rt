// Portfolio margin: the greater of the loss in the tails and the floor.
ghost use Rattle.std.specs.Prelude.{◌≡◌, ◌*◌, ◌<◌, ◌≤◌, length, pos, ◌*ℤ◌, unsigned_abs};
ghost use Rattle.margin_rules.specs.Positions.{all_stocks};
ghost use Rattle.margin_rules.specs.Portfolio.{rounded_product, tails_of, both_tails, weighed, portfolio_margin};
ghost use Rattle.margin.specs.Groups.{stock_market, TotalsFit, RowFits, TailFits};

use crate::account::Assessable;
use crate::figures::{product, round_off};
use crate::parts::Part;
use margin_rules::Outcome;
use return_source::{Parameters, ReturnSource, ScenarioSet};

// The tail sums of all groups together, of either set of scenarios.
#[derive(Clone, Copy)]
pub(crate) struct TailSums {
    pub(crate) historical: i64,
    pub(crate) stress: i64,
}

// The product of both tail counts.
fn both_tails<S: ReturnSource>(source: &S) -> u64
    ensures value { result ≡ both_tails (S.meaning source.now) }
    ensures some { 0 < result }
    ensures few { result ≤ 10000 }
{
    let p = source.parameters();
    u64::from(p.historical.tail * p.stress.tail)
}

// One set's part of the loss: its weight and the other set's tail count, times its tail sums.
fn weighted(weight: u32, others: u32, sums: i64) -> i128
    requires weight { weight ≤ 10000 }
    requires others { others ≤ 100 }
    requires sums { unsigned_abs sums ≤ 80000000000000000 }
    ensures value { result ≡ pos (weight * others) *ℤ sums }
    ensures bound { unsigned_abs result ≤ others * 800000000000000000000 }
{
    product(u64::from(weight * others), sums)
}

// Minus the weighted averages of the tails, over 10^4 times both tail counts.
fn loss<S: ReturnSource>(source: &S, tails: TailSums) -> i128
    requires historical { unsigned_abs tails.historical ≤ 80000000000000000 }
    requires stress { unsigned_abs tails.stress ≤ 80000000000000000 }
    ensures value { result ≡ weighed (S.meaning source.now) tails.historical tails.stress }
    ensures bound { unsigned_abs result ≤ (10000 * both_tails (S.meaning source.now)) * 160000000000000000 }
{
    let Parameters {
        historical,
        stress,
        step: _,
        holiday_factor: _,
    } = source.parameters();
    let h = weighted(
        historical.weight.ten_thousandths,
        stress.tail,
        tails.historical,
    );
    let s = weighted(stress.weight.ten_thousandths, historical.tail, tails.stress);
    -(h + s)
}

impl<S: ReturnSource> Assessable<'_, S> {
    // The tail sums of both sets. The stress totals stand right after the historical ones.
    pub(crate) fn tails(
        &self,
        totals: &mut [i64],
        row: &mut [i32],
        tail: &mut [Outcome],
    ) -> TailSums
        requires totals { TotalsFit (S.meaning self.now.source.now) (length totals.old) }
        requires row { RowFits (S.meaning self.now.source.now) (length row.old) }
        requires tail { TailFits (S.meaning self.now.source.now) (length tail.old) }
        ensures historical { result.historical ≡ tails_of rounded_product (S.meaning self.now.source.now) self.now.account.settings.now all_stocks ScenarioSet.Historical (stock_market self.now.account.places.now) }
        ensures stress { result.stress ≡ tails_of rounded_product (S.meaning self.now.source.now) self.now.account.settings.now all_stocks ScenarioSet.Stress (stock_market self.now.account.places.now) }
        ensures historical_bound { unsigned_abs result.historical ≤ 80000000000000000 }
        ensures stress_bound { unsigned_abs result.stress ≤ 80000000000000000 }
    {
        let p = self.source.parameters();
        let h = p.historical.count as usize;
        let s = p.stress.count as usize;
        let historical = self.set_tails(
            ScenarioSet::Historical,
            &mut totals[..h],
            row,
            &mut tail[..p.historical.tail as usize],
        );
        let stress = self.set_tails(
            ScenarioSet::Stress,
            &mut totals[h..h + s],
            row,
            &mut tail[..p.stress.tail as usize],
        );
        TailSums { historical, stress }
    }

    // The floor, over 10^4 times both tail counts.
    fn floor(&self, side: i64) -> i128
        requires side { unsigned_abs side ≤ 81920000000000 }
        ensures value { result ≡ pos (self.now.account.settings.now.floor_rate * both_tails (S.meaning self.now.source.now)) *ℤ side }
        ensures bound { unsigned_abs result ≤ (10000 * both_tails (S.meaning self.now.source.now)) * 160000000000000000 }
    {
        product(
            u64::from(self.account.settings.floor_rate) * both_tails(self.source),
            side,
        )
    }

    // The margin of the portfolio tier.
    pub(crate) fn portfolio_margin(
        &self,
        totals: &mut [i64],
        row: &mut [i32],
        tail: &mut [Outcome],
    ) -> i64
        requires totals { TotalsFit (S.meaning self.now.source.now) (length totals.old) }
        requires row { RowFits (S.meaning self.now.source.now) (length row.old) }
        requires tail { TailFits (S.meaning self.now.source.now) (length tail.old) }
        ensures value { result ≡ portfolio_margin (S.meaning self.now.source.now) self.now.account.settings.now all_stocks (stock_market self.now.account.places.now) }
        ensures bound { unsigned_abs result ≤ 160000000000000000 }
    {
        let loss = loss(self.source, self.tails(totals, row, tail));
        let floor = self.floor(self.side(Part::Portfolio));
        round_off(loss.max(floor), 10_000 * both_tails(self.source)) as i64
    }
}
