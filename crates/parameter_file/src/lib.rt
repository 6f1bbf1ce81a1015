// The parameter file: received, checked, and what it then says.
#![tactic(auto)]

mod file;
mod heads;
mod judging;
mod others;
mod questions;
mod reading;
mod rows;
mod rule;
mod source;
mod states;
mod summary;
mod table;
mod terms;

pub use file::{CheckedFile, Memory, Received};
pub use summary::examine;
pub use terms::{Refusal, Summary};
