//! What is told of a case: what denies it whatever authorities answer, and its verdict with answers that are given
//! beforehand.
#![tactic(auto)]

mod causes;
mod verdicts;

pub use causes::open_proof;
pub use verdicts::{is_ask_line, verdict};
