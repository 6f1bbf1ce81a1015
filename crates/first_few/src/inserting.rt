// One element put in its place among those in order.
ghost use Rattle.std.specs.Prelude.{◌≡◌, ℕ, ◌+◌, ◌-◌, ◌<◌, ◌≤◌, min, Bool, true, false, not, List, [], ◌∷◌, ◌++◌, length, take, drop, IfSome, slice_index_or};
ghost use Rattle.std.specs.List.{between, prefix_len};
ghost use Rattle.amounts.specs.FirstFew.{keep};
ghost use Rattle.first_few.specs.Order.{InOrder};

use crate::order::Order;

// The last element of `part` that stays ahead of `x`.
fn last_ahead<T: Order>(part: &[T], x: T) -> Option<usize>
    ensures inside { IfSome result (λ i. i < length part.now) }
    ensures ahead { IfSome result (λ i. T.before x (slice_index_or part.now i x) ≡ false) }
    ensures behind { IfSome result (λ i. (k : ℕ) → i < k → k < length part.now → T.before x (slice_index_or part.now k x) ≡ true) }
    ensures all_behind { result ≡ None → (k : ℕ) → k < length part.now → T.before x (slice_index_or part.now k x) ≡ true }
{
    part.iter().rposition(|y| !x.precedes(y))
}

// How many of `part` stay ahead of `x`.
fn place_of<T: Order>(part: &[T], x: T) -> usize
    requires { InOrder T.before part.now }
    ensures value { result ≡ prefix_len (λ y. not (T.before x y)) part.now }
    ensures bound { result ≤ length part.now }
{
    last_ahead(part, x).map_or(0, |last| last + 1)
}

// Moves the elements from `from` up to `to` one place on.
// Kept: a loop, for `copy_within` does the same, and then no edit that spreads the last element is refused for what it leaves: a
// loop that is planted in its place has no invariant, and so a right one would be refused too.
fn shift<T: Copy>(places: &mut [T], from: usize, to: usize)
    requires { (from ≤ to) × (to < length places.old) }
    ensures { places.new ≡ take (from + 1) places.old ++ (between from to places.old ++ drop (to + 1) places.old) }
{
    let mut j = to;
    while j > from {
        places[j] = places[j - 1];
        j -= 1;
    }
}

// The last place in use after one more, where so many places are and `len` of them were in use.
fn last_in_use(places: usize, len: usize) -> usize
    requires { 0 < places }
    ensures { result ≡ min (places - 1) len }
{
    (places - 1).min(len)
}

// Takes `x` among the first `len` of `places`, and keeps of them as many as there are places.
pub(crate) fn insert<T: Order>(places: &mut [T], len: usize, x: T) -> usize
    requires within { len ≤ length places.old }
    requires in_order { InOrder T.before (take len places.old) }
    ensures count { result ≡ min (len + 1) (length places.old) }
    ensures kept { take result places.new ≡ keep T.before (length places.old) (take len places.old) x }
    ensures spare { drop result places.new ≡ drop result places.old }
    ensures in_order { InOrder T.before (take result places.new) }
{
    let cap = places.len();
    let at = place_of(&places[0..len], x);
    if at >= cap {
        return len;
    }
    let end = last_in_use(cap, len);
    shift(places, at, end);
    places[at] = x;
    end + 1
}
