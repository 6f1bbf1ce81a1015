// The text of a parameter file: its lines, its cells, and what each kind of cell is worth.
#![tactic(auto)]

mod cuts;
mod dates;
mod decimals;
mod digits;
mod integers;
mod questions;
mod signs;
mod terms;

pub use cuts::{Cells, Lines, front_line};
pub use dates::date;
pub use integers::stock;
pub use terms::{Date, DecimalRule, IntegerRule, Places, Question, Sign};
