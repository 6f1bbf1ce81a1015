// The arguments of the file check, and the texts that it prints.
#![tactic(auto)]

mod arguments;
mod csv;
mod report;
#[cfg(test)]
mod tests;

pub use arguments::{Request, UsageError};
pub use csv::{CsvFault, CsvSummary};
pub use figures::Form;
pub use report::{FaultReport, SummaryReport};
