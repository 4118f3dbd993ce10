//! Derivations, the faults of a proof's lines, and verdicts: the definitions of the logic, and its laws.
#![tactic(auto)]

mod cases;
mod laws;
mod lists;
mod verdicts;

pub use cases::{Binding, Bindings, Case, Labels};
pub use laws::{
    a_case_has_one_verdict, more_keeps_derivable, older_rules_are_kept, statements_are_consistent,
};
pub use lists::ItemList;
pub use verdicts::{Cause, Fault, Verdict, cause_numbers};
