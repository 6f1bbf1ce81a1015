// The parts of an account's positions that are worked out together.
ghost use Rattle.std.specs.Prelude.{◌≡◌};
ghost use Rattle.margin_rules.specs.Portfolio.{in_portfolio};
ghost use Rattle.margin_rules.specs.Charges.{at_rate};
ghost use Rattle.margin.specs.Visits.{stock_in};
ghost use Rattle.margin.specs.Parts.{belongs};
ghost use Rattle.ledger.specs.declared.terms.Kind.TheVariants as kind;

use crate::account::Assessable;
use crate::visits::{Visit, Visits, stock_of};
use ledger::{Kind, Place, Settings};
use return_source::{ReturnSource, Tier};

// A part of the positions of stocks.
#[derive(Clone, Copy)]
pub(crate) enum Part {
    // All of the portfolio tier.
    Portfolio,
    // Its common group.
    Common,
    // Its stocks that are groups by themselves.
    Own,
    // The flat stocks of one rate.
    FlatAt(u32),
}

// Does a stock stand in the portfolio tier?
fn in_portfolio<S: ReturnSource>(source: &S, stock: u32) -> bool
    ensures { result ≡ in_portfolio (S.meaning source.now) stock }
{
    source.tier(stock) == Some(Tier::Portfolio)
}

// Does a stock stand in the flat tier at a rate?
fn is_at_rate<S: ReturnSource>(source: &S, rate: u32, stock: u32) -> bool
    ensures { result ≡ at_rate (S.meaning source.now) rate stock }
{
    source.tier(stock) == Some(Tier::Flat) && source.flat_rate(stock) == Some(rate)
}

// Each stock of a part.
#[derive(Drop)]
pub(crate) struct InPart<'a, S> {
    pub(crate) settings: &'a Settings,
    pub(crate) source: &'a S,
    pub(crate) part: Part,
}

impl<S: ReturnSource> Visit for InPart<'_, S> {
    ghost key_in = { λ it. stock_in kind.Stock };

    ghost counts = { λ it. belongs (S.meaning it.source.now) it.settings.now it.part };

    fn key_in(&self, place: &Place) -> Option<u32> {
        stock_of(place, Kind::Stock)
    }

    fn counts(&self, stock: u32) -> bool {
        let InPart {
            settings,
            source,
            ..
        } = *self;
        match self.part {
            Part::Portfolio => in_portfolio(source, stock),
            Part::Common => !settings.is_ipo(stock) && in_portfolio(source, stock),
            Part::Own => settings.is_ipo(stock) && in_portfolio(source, stock),
            Part::FlatAt(rate) => is_at_rate(source, rate, stock),
        }
    }
}

impl<'a, S: ReturnSource> Assessable<'a, S> {
    // The visits of a part's stocks.
    pub(crate) fn visits_in(&self, part: Part) -> Visits<'a, InPart<'a, S>>
        ensures places { result.places.now ≡ self.now.account.places.now }
        ensures settings { result.by.settings.now ≡ self.now.account.settings.now }
        ensures source { result.by.source.now ≡ self.now.source.now }
        ensures part { result.by.part ≡ part }
    {
        let account = self.account;
        account.visits(InPart {
            settings: account.settings,
            source: self.source,
            part,
        })
    }
}
