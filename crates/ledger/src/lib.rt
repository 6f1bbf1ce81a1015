#![tactic(auto)]
// The table of an account: what a post or a cancel is refused for, and what it leaves.
mod entries;
mod kinds;
mod places;
mod refusals;
mod settings;
mod terms;

pub use entries::{entry_of, is_numbered};
pub use places::{check_cancel, check_post, place_of};
pub use settings::check_opening;
pub use terms::{
    Entry, EntryRefusal, GivenAmounts, Instrument, Kind, OpeningRefusal, Place, Posting, Settings,
};
