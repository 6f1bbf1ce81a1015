// The first few of a sequence by an order, kept in order over lent places.
#![tactic(auto)]

mod inserting;
mod keeping;
mod order;

pub use keeping::FirstFew;
pub use order::Order;
