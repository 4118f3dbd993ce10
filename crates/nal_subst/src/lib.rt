//! Substitution of a term for a variable in a formula, which is undefined where a variable of the term
//! would be captured: the new formula, and the test whether a formula is one that a substitution makes.
#![tactic(auto)]

mod captures;
mod instances;
mod laws;
mod substitutions;

pub use instances::{Match, instance, instance_counted};
pub use laws::variables_are_kept_apart;
pub use substitutions::{SubstError, names_are_never_captured, substitute};
