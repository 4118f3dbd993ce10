//! The input of `explain`, the line of its question, and the lines that are written of it.
#![tactic(auto)]

mod answers;
mod printer;
mod question_lines;
mod read;

pub use answers::{ExplanationText, explanation_of};
pub use printer::print_explained;
pub use question_lines::{Question, read_question};
pub use read::{ExplainError, ExplainForm, read_explain};
