//! The lines of a text, and the words and numbers of a line.
#![tactic(auto)]

mod lines;
mod numbers;

pub use lines::{after_word, first_line, line_count};
pub use numbers::read_number;
