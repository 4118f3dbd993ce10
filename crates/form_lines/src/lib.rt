//! What the inputs of several commands have in common: the lines that they begin with, and how lines are read one by one.
#![tactic(auto)]

mod reading;
mod statements;

pub use reading::{FormError, Progress, read_lines};
pub use statements::{LineError, formula, goal, goal_for_subject, statement, with_statement};
