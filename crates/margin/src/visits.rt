// How an assessment goes over positions: each key, as a stock of one kind or a flat rate, is visited at the last of the live
// entries that have it.
ghost use Rattle.std.specs.Prelude.{◌≡◌, ℕ, Bool, true, List, filter, Option};
ghost use Rattle.std.specs.List.{list_any};
ghost use Rattle.ledger.specs.declared.terms.Kind.{Kind};
ghost use Rattle.ledger.specs.declared.terms.Place.{Place};
ghost use Rattle.margin.specs.Visits.{stock_in, is_key, any_key, last_key, only, visited};

use ledger::{Kind, Place};

// What is visited: the key of a place, if it has one, and which of the keys are to be visited.
pub(crate) trait Visit: Drop {
    ghost key_in: { Self → Place → Option ℕ };

    ghost counts: { Self → ℕ → Bool };

    fn key_in(&self, place: &Place) -> Option<u32>
        ensures { result ≡ key_in self.now place.now };

    fn counts(&self, key: u32) -> bool
        ensures { result ≡ counts self.now key };
}

// The stock of a live entry of a kind.
pub(crate) fn stock_of(place: &Place, kind: Kind) -> Option<u32>
    ensures { result ≡ stock_in kind place.now }
{
    match place {
        Place::Live { entry, .. } if entry.instrument.kind == kind => {
            Some(entry.instrument.stock)
        }
        _ => None,
    }
}

// Each stock of a kind.
impl Visit for Kind {
    ghost key_in = { stock_in };

    ghost counts = { λ k x. true };

    fn key_in(&self, place: &Place) -> Option<u32> {
        stock_of(place, *self)
    }

    fn counts(&self, _stock: u32) -> bool {
        true
    }
}

// Has a place this key?
fn has_key<V: Visit>(by: &V, place: &Place, key: u32) -> bool
    ensures { result ≡ is_key key (V.key_in by.now place.now) }
{
    by.key_in(place) == Some(key)
}

// Has any place this key?
fn any_has_key<V: Visit>(by: &V, places: &[Place], key: u32) -> bool
    ensures { result ≡ list_any (λ p. is_key key (V.key_in by.now p)) places.now }
{
    places.iter().any(|place| has_key(by, place, key))
}

// The key of a place, if it is visited there: no later place has it.
#[tactic(auto, using(crate::proofs::Keys::any_key_is))]
fn last_key<V: Visit>(by: &V, place: &Place, later: &[Place]) -> Option<u32>
    ensures { result ≡ only (V.counts by.now) (last_key (V.key_in by.now place.now) (λ q. any_key (V.key_in by.now) q later.now)) }
{
    let key = by.key_in(place)?;
    // Most keys do not count: those are not looked for among the later places.
    if by.counts(key) && !any_has_key(by, later, key) {
        Some(key)
    } else {
        None
    }
}

// The visits of places, one after the other.
#[derive(Drop)]
pub(crate) struct Visits<'a, V> {
    pub(crate) places: &'a [Place],
    pub(crate) by: V,
}

impl<V: Visit> Iterator for Visits<'_, V> {
    ghost use Rattle.std.specs.Iterator.{YieldsFirst, item_count};

    type Item = u32;

    ghost next_gives = { YieldsFirst (λ s. filter (V.counts s.by) (visited (V.key_in s.by) s.places.now)) };

    ghost remaining = { item_count (λ s. filter (V.counts s.by) (visited (V.key_in s.by) s.places.now)) };

    fn next(&mut self) -> Option<u32> {
        while let Some((place, later)) = self.places.split_first() {
            self.places = later;
            if let Some(key) = last_key(&self.by, place, later) {
                return Some(key);
            }
        }
        None
    }
}
