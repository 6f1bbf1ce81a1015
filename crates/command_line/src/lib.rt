// The words of a command line as items: an option with its value is one, and each other word is one.
#![tactic(auto)]

mod faults;
mod items;
mod kinds;

pub use faults::OptionFault;
pub use items::{Item, Items};
pub use kinds::WordKind;
