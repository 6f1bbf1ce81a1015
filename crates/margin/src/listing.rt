// The holdings list: the greatest positions.
ghost use Rattle.std.specs.Prelude.{◌≡◌, ◌≤◌, length, take, drop, fold};
ghost use Rattle.amounts.specs.FirstFew.{keep};
ghost use Rattle.margin_rules.specs.Positions.{all_stocks, book};
ghost use Rattle.margin_rules.specs.Answers.{larger, list_of};
ghost use Rattle.margin.specs.Listing.{listed};

use crate::account::Account;
use crate::gross::KINDS;
use first_few::FirstFew;
use ledger::Kind;
use margin_rules::Holding;

const NO_HOLDING: Holding = Holding {
    kind: Kind::Stock,
    stock: 0,
    market_value: 0,
};

impl Account<'_> {
    // Offers each position of a kind.
    fn offer_kind(&self, list: &mut FirstFew<Holding>, kind: Kind)
        ensures kept { take list.new.len list.new.places.now ≡ fold (keep larger (length list.old.places.now)) (take list.old.len list.old.places.now) (listed self.now.places.now kind) }
        ensures more { list.old.len ≤ list.new.len }
        ensures spare { drop list.new.len list.new.places.now ≡ drop list.new.len list.old.places.now }
        ensures room { length list.new.places.now ≡ length list.old.places.now }
        ensures same { list.new.places.ghost_name ≡ list.old.places.ghost_name }
    {
        for stock in self.visits(kind) {
            list.offer(Holding {
                kind,
                stock,
                market_value: self.market_of(kind, stock),
            });
        }
    }

    // Lists the greatest positions, as many as there are places; a spare place has stock 0.
    pub(crate) fn list_holdings(&self, holdings: &mut [Holding])
        ensures { holdings.new ≡ list_of (length holdings.old) all_stocks (book self.now.places.now) }
    {
        holdings.fill(NO_HOLDING);
        let mut list = FirstFew::new(holdings);
        for kind in KINDS {
            self.offer_kind(&mut list, kind);
        }
    }
}
