//! The input of `prove`, and the proof that is found for it.
#![tactic(auto)]

mod answers;
mod givens;
mod progress;
mod read;

pub use answers::{ProveError, found_line, prove_of};
pub use givens::{Givens, ProveForm};
pub use read::read_prove;
