// The fallback source: every stock in the flat tier at one rate, for the days on which no parameter file is at hand.
#![tactic(auto)]

mod source;
mod terms;

pub use source::FallbackSource;
pub use terms::RateRefusal;

#[cfg(test)]
mod tests;
