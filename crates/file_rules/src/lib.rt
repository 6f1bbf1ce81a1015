// The rules of a parameter file: what rows it has, in which order its questions are put, and which bytes lay down which
// file. Statements and their proofs, and no code.
#![tactic(auto)]

mod terms;

pub use terms::FieldType;
