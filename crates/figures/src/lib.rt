// Figures as they are printed: numbers, decimals and dates as text, and values at the right of a column.
#![tactic(auto)]

mod columns;
mod form;
mod numbers;

pub use columns::{Column, CountCell, Measured};
pub use form::{Form, InForm};
pub use numbers::{Decimal, Dollars, IsoDate, Numeral, Thousands};
