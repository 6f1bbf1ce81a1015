// The first few of what is offered, over lent places.
ghost use Rattle.std.specs.Prelude.{◌≡◌, ◌≤◌, ◌+◌, min, List, [], ◌∷◌, ◌++◌, length, take, drop};
ghost use Rattle.amounts.specs.FirstFew.{keep};
ghost use Rattle.first_few.specs.Order.{InOrder, in_order_prop};
ghost use Rattle.first_few.specs.First.{AreFirst, KeepsTheFirst};

use crate::inserting::insert;
use crate::order::Order;

// The places that are lent, and how many of them are in use.
// Kept: a slice with a length beside it, since the places are the caller's memory and the margin engine uses no heap.
#[derive(Drop)]
pub struct FirstFew<'a, T: Order> {
    places: &'a mut [T],
    len: usize,
    ghost within: { len ≤ length places.now },
    ghost in_order: { InOrder T.before (take len places.now) } by { in_order_prop T.before (take len places.now) },
}

impl<'a, T: Order> FirstFew<'a, T> {
    // None yet.
    pub fn new(places: &'a mut [T]) -> FirstFew<'a, T>
        ensures len { result.len ≡ 0 }
        ensures places { result.places.now ≡ places.old }
        ensures same { result.places.ghost_name ≡ places.entry.ghost_name }
        ensures keeps_the_first { KeepsTheFirst T.before }
    {
        FirstFew { places, len: 0 }
    }

    // One more, of which as many stay as there are places.
    pub fn offer(&mut self, x: T)
        ensures count { self.new.len ≡ min (self.old.len + 1) (length self.old.places.now) }
        ensures kept { take self.new.len self.new.places.now ≡ keep T.before (length self.old.places.now) (take self.old.len self.old.places.now) x }
        ensures keeps_the_first { (xs : List T) → AreFirst T.before (length self.old.places.now) xs (take self.old.len self.old.places.now) → AreFirst T.before (length self.old.places.now) (xs ++ x ∷ []) (take self.new.len self.new.places.now) }
        ensures spare { drop self.new.len self.new.places.now ≡ drop self.new.len self.old.places.now }
        ensures room { length self.new.places.now ≡ length self.old.places.now }
        ensures same { self.new.places.ghost_name ≡ self.old.places.ghost_name }
    {
        let len = self.len;
        self.len = insert(self.places, len, x);
    }

    // Those that are kept, in order.
    pub fn kept(&self) -> &[T]
        ensures { result.now ≡ take self.now.len self.now.places.now }
    {
        &self.places[0..self.len]
    }
}
