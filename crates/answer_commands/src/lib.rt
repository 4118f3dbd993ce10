//! The commands that read one input and write one answer to it: `check`, `trust`, `prove`, `audit`, `explain`, `recover`,
//! `export` and `compact`.
#![tactic(auto)]

mod answering;
mod answers;
mod check_form;
mod checks;
mod compacts;
mod exports;
mod headed;
mod judge;
mod keys;
mod laws;
mod places;
mod stages;

pub use answering::{Answer, AnswerError, answer_input};
pub use answers::{Exported, Found, Recovered};
pub use compacts::compact;
pub use exports::export;
pub use laws::an_input_has_one_outcome;
