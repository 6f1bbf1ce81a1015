// A margin account, and its assessment: from the live entries of a table to the total.
#![tactic(auto)]

mod account;
mod adding;
mod assessing;
mod closed;
mod counting;
mod covered;
mod days;
mod entitlements;
mod figures;
mod flats;
mod gross;
mod groups;
mod listing;
mod opened;
mod parts;
mod portfolio;
mod positions;
mod requests;
mod requirement;
mod returns;
mod sides;
mod tails;
#[cfg(test)]
mod tests;
mod visits;

pub use closed::ClosedAccount;
pub use days::day;
pub use opened::{OpenAccount, check_open, open};
pub use requests::{DayRefusal, Request};
