// Return sources behind one interface: what a source tells, and what each of them owes.
#![tactic(auto)]

mod source;
mod terms;

pub use source::{ReturnSource, covers};
pub use terms::{
    Entitlement, EntitlementType, Parameters, RowRefusal, ScenarioSet, Scenarios, Tier, Weight,
};
