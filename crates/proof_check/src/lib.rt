//! Checks a proof line by line: whether each line follows by its rule from earlier lines, and the last
//! is the goal.
#![tactic(auto)]

mod checks;
mod comparison_forms;
mod comparisons;
mod faults;
mod forms;
mod freshness;
mod hypotheses;
mod hypothesis_sets;
mod laws;
mod line_sets;
mod lists;
mod logic_forms;
mod numbers;
mod premises;
mod same;
mod scope;
mod statement_forms;
mod substitutions;
mod supports;

pub use checks::{CheckError, Checked, check, check_counted, fault_of_line};
pub use laws::{allowed_cases_derive, faultless_proofs_derive};
pub use lists::LineList;
pub use supports::{missing_label, port_of, question, unbound_line};
