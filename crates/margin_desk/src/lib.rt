// What the margin call's program says and is told: its command line, and the texts that it prints.
#![tactic(auto)]

mod answers;
mod arguments;
mod assessments;
mod journals;
mod kinds;
mod refusals;
mod words;

pub use answers::{Answer, AnswerCounts, AnswerReport, CountsReport, CsvAnswer};
pub use arguments::{MarginCall, Request, Source};
pub use assessments::AssessmentText;
pub use journals::Journals;
pub use refusals::{CsvRefused, Refused, RefusedReport};
pub use words::UsageError;

#[cfg(test)]
mod tests;
