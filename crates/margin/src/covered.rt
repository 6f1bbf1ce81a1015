// Which held instruments a return source tells nothing of.
ghost use Rattle.std.specs.Prelude.{◌≡◌, not, min, filter};
ghost use Rattle.std.specs.List.{filter_map, reduce};
ghost use Rattle.margin_rules.specs.Positions.{all_stocks, held_in, any_place};
ghost use Rattle.margin_rules.specs.Answers.{is_covered, uncovered_of};
ghost use Rattle.margin.specs.Visits.{stock_in};

use crate::account::Account;
use crate::entitlements::entitlement_type;
use crate::gross::KINDS;
use crate::visits::stock_of;
use ledger::{Instrument, Kind};
use return_source::{ReturnSource, covers};

// Has an instrument a tier, or an entitlement of its kind?
#[tactic(auto, using(crate::proofs::EntitlementLaws::covered_is))]
fn is_covered<S: ReturnSource>(source: &S, kind: Kind, stock: u32) -> bool
    ensures { result ≡ is_covered (S.meaning source.now) kind stock }
{
    covers(source, stock, entitlement_type(kind))
}

impl Account<'_> {
    // The lowest stock of a kind that is held and not covered.
    fn lowest_uncovered<S: ReturnSource>(&self, source: &S, kind: Kind) -> Option<u32>
        ensures { result ≡ reduce min (filter (λ x. not (is_covered (S.meaning source.now) kind x)) (filter_map (stock_in kind) self.now.places.now)) }
    {
        self.places
            .iter()
            .filter_map(|place| stock_of(place, kind))
            .filter(|stock| !is_covered(source, kind, *stock))
            .min()
    }

    // The instrument of the lowest kind, then of the lowest stock, that is held and not covered.
    pub(crate) fn first_uncovered<S: ReturnSource>(&self, source: &S) -> Option<Instrument>
        ensures { result ≡ uncovered_of (S.meaning source.now) all_stocks (λ k x. any_place (held_in k x) self.now.places.now) }
    {
        for kind in KINDS {
            if let Some(stock) = self.lowest_uncovered(source, kind) {
                return Some(Instrument { kind, stock });
            }
        }
        None
    }
}
