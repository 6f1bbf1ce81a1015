// From the margins to the total that is called.
ghost use Rattle.std.specs.Prelude.{◌≡◌, ◌<◌, ◌≤◌, pos, ◌+ℤ◌, unsigned_abs};
ghost use Rattle.margin_rules.specs.Requirement.{given_inside, given_beside};
ghost use Rattle.margin.specs.Requirement.{figures_on};

use crate::account::Account;
use crate::figures::{holiday_margin, less, long_of, round_up, short_of};
use margin_rules::Assessment;
use return_source::Parameters;

// The margins that come of positions alone.
#[derive(Clone, Copy)]
pub(crate) struct Margins {
    pub(crate) portfolio: i64,
    pub(crate) flat_rate: i64,
    pub(crate) corporate_action: i64,
}

// Portfolio and flat-rate margin together.
fn charged(margins: Margins) -> i64
    requires portfolio { unsigned_abs margins.portfolio ≤ 160000000000000000 }
    requires flat_rate { unsigned_abs margins.flat_rate ≤ 1342177280000000000 }
    ensures value { result ≡ margins.portfolio +ℤ margins.flat_rate }
    ensures bound { unsigned_abs result ≤ 1502177280000000000 }
{
    margins.portfolio + margins.flat_rate
}

// The margins and the amounts given for the aggregate.
fn aggregate(charged: i64, corporate_action: i64, holiday: i64, given: i64) -> i64
    requires charged { unsigned_abs charged ≤ 1502177280000000000 }
    requires corporate_action { unsigned_abs corporate_action ≤ 983040000000000 }
    requires holiday { unsigned_abs holiday ≤ 1502177280000000000 }
    requires given { unsigned_abs given ≤ 2000000000000 }
    ensures value { result ≡ charged +ℤ corporate_action +ℤ holiday +ℤ given }
    ensures bound { unsigned_abs result ≤ 3100000000000000000 }
{
    charged + corporate_action + holiday + given
}

// What is called in the end.
fn total(credited: i64, requirement: i64, given: i64) -> i64
    requires credited { unsigned_abs credited ≤ 3200000000000000000 }
    requires requirement { unsigned_abs requirement ≤ 163840000000000 }
    requires given { unsigned_abs given ≤ 3000000000000 }
    ensures { result ≡ credited +ℤ requirement +ℤ given }
{
    credited + requirement + given
}

impl Account<'_> {
    // The given amounts that are part of the aggregate.
    fn given_inside(&self) -> i64
        ensures value { result ≡ pos (given_inside self.now.settings.now) }
        ensures bound { unsigned_abs result ≤ 2000000000000 }
    {
        (self.settings.given.liquidation + self.settings.given.structured_product) as i64
    }

    // The given amounts that come on top of it.
    fn given_beside(&self) -> i64
        ensures value { result ≡ pos (given_beside self.now.settings.now) }
        ensures bound { unsigned_abs result ≤ 3000000000000 }
    {
        let given = self.settings.given;
        (given.position_limit + given.credit_risk + given.ad_hoc) as i64
    }

    // The credit.
    fn credit(&self) -> i64
        ensures value { result ≡ pos self.now.settings.now.credit }
        ensures bound { unsigned_abs result ≤ 1000000000 }
    {
        self.settings.credit as i64
    }

    // All figures, from the margins, the mark and the number of positions.
    pub(crate) fn figures_on(
        &self,
        p: Parameters,
        margins: Margins,
        mark: i64,
        positions: u32,
    ) -> Assessment
        requires factor { p.holiday_factor ≤ 10000000000 }
        requires some { 0 < p.step }
        requires few { p.step ≤ 1000000 }
        requires portfolio { unsigned_abs margins.portfolio ≤ 160000000000000000 }
        requires flat_rate { unsigned_abs margins.flat_rate ≤ 1342177280000000000 }
        requires corporate_action { unsigned_abs margins.corporate_action ≤ 983040000000000 }
        requires mark { unsigned_abs mark ≤ 163840000000000 }
        ensures { result ≡ figures_on p self.now.settings.now margins.portfolio margins.flat_rate margins.corporate_action mark positions }
    {
        let charged = charged(margins);
        let holiday = holiday_margin(p.holiday_factor, charged);
        let given = self.given_inside();
        let aggregate = aggregate(charged, margins.corporate_action, holiday, given);
        let rounded = round_up(p.step, aggregate);
        let favourable = long_of(mark);
        let requirement = short_of(mark);
        let net = less(rounded, favourable);
        let credited = less(net, self.credit());
        let total = total(credited, requirement, self.given_beside());
        Assessment {
            portfolio: margins.portfolio,
            flat_rate: margins.flat_rate,
            corporate_action: margins.corporate_action,
            holiday,
            aggregate,
            rounded,
            favourable,
            requirement,
            net,
            credited,
            total,
            positions,
        }
    }
}
