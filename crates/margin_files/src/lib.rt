// The files that a margin call is made from beside the parameter file: the settings of an account, and the journals of its calls.
#![tactic(auto)]

mod journals;
mod numbers;
mod settings_file;
mod terms;

pub use journals::{Calls, check_journal};
pub use numbers::{count, rate};
pub use settings_file::read_settings;
pub use terms::{FormFault, JournalCall};

#[cfg(test)]
mod tests;
