// The questions that the places of a table are asked.
ghost use Rattle.std.specs.Prelude.{◌≡◌, slice_get};
ghost use Rattle.std.specs.List.{position, prefix_len};
ghost use Rattle.std.specs.Result.{result_err};
ghost use Rattle.ledger.specs.Table.{number_of_place, is_of, is_other};
ghost use Rattle.ledger.specs.Calls.{post_known, cancel_known, checked_post, checked_cancel};
ghost use Rattle.ledger.specs.Laws.{OrderDoesNotCount, CancelledStaysCancelled, EachNumberOnePlace, LiveIsPostedAndNotCancelled};

use super::entries::{entry_of, is_numbered};
use super::terms::{Entry, EntryRefusal, Place, Posting};

impl Place {
    // The number that the place is kept for, 0 where it is free.
    // Kept: 0 and no `None`, since the laws of a table compare the numbers of all its places.
    pub fn number(&self) -> u32
        ensures { result ≡ number_of_place self.now }
    {
        match self {
            Place::Free => 0,
            Place::Live { number, .. } => *number,
            Place::Cancelled { number } => *number,
        }
    }
}

// The place of a number, told by how many stand ahead of it, if it has one.
fn position_of(places: &[Place], number: u32) -> Option<usize>
    ensures { result ≡ position (is_of number) places.now }
{
    places.iter().position(|place| place.number() == number)
}

// How many places stand ahead of the first one of a number; all of them where it has none.
#[tactic(auto, using(crate::proofs::PlaceLaws::first_or_all))]
pub fn place_of(places: &[Place], number: u32) -> usize
    ensures { result ≡ prefix_len (is_other number) places.now }
{
    position_of(places, number).unwrap_or(places.len())
}

// The place behind so many others, if there is one.
// Kept: with `get(at).copied()` at its two calls the proofs of the callers, `judge_post` and `check_cancel`, don't close.
fn place_at(places: &[Place], at: usize) -> Option<Place>
    ensures { result ≡ slice_get places.now at }
{
    places.get(at).copied()
}

// Whether the state of a call's number, and then the room, lets it pass. What a live entry says to the call is given.
fn check_state(
    place: Option<Place>,
    has_room: bool,
    live: Result<(), EntryRefusal>,
) -> Result<(), EntryRefusal>
    ensures post { live ≡ Err EntryRefusal.Posted → result_err result ≡ post_known place has_room }
    ensures cancel { live ≡ Ok tt → result_err result ≡ cancel_known place has_room }
{
    match place {
        Some(Place::Cancelled { .. }) => Err(EntryRefusal::Cancelled),
        Some(Place::Live { .. }) => live,
        Some(Place::Free) | None if has_room => Ok(()),
        Some(Place::Free) | None => Err(EntryRefusal::Full),
    }
}

// The entry that a post stores, or the first question that refuses it.
// Kept: apart from `check_post`, whose laws have written proofs, so that the check finds the proof of this answer alone.
#[tactic(auto, using(crate::proofs::PlaceLaws::found_at))]
fn judge_post(used: &[Place], places: usize, posting: &Posting) -> Result<Entry, EntryRefusal>
    ensures { result ≡ checked_post places posting.now used.now }
{
    if !is_numbered(posting.number) {
        return Err(EntryRefusal::Number);
    }
    let entry = entry_of(posting)?;
    let place = place_at(used, place_of(used, posting.number));
    check_state(place, used.len() < places, Err(EntryRefusal::Posted))?;
    Ok(entry)
}

// The entry that a post stores, or the first question that refuses it, over a table with so many places of which these
// are used. What is true of every run of posts and cancels stands here beside it.
pub fn check_post(used: &[Place], places: usize, posting: &Posting) -> Result<Entry, EntryRefusal>
    ensures answer { result ≡ checked_post places posting.now used.now }
    ensures order { OrderDoesNotCount }
    ensures cancelled { CancelledStaysCancelled }
    ensures one_place { EachNumberOnePlace }
    ensures live { LiveIsPostedAndNotCancelled }
{
    judge_post(used, places, posting)
}

// The place that a cancel marks, or the first question that refuses it.
#[tactic(auto, using(crate::proofs::PlaceLaws::found_at))]
pub fn check_cancel(used: &[Place], places: usize, number: u32) -> Result<usize, EntryRefusal>
    ensures { result ≡ checked_cancel places number used.now }
{
    if !is_numbered(number) {
        return Err(EntryRefusal::Number);
    }
    let at = place_of(used, number);
    check_state(place_at(used, at), used.len() < places, Ok(()))?;
    Ok(at)
}
