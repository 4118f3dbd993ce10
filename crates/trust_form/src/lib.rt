//! The input of `trust`, and what is written of it.
#![tactic(auto)]

mod answers;
mod givens;
mod progress;
mod read;
mod words;

pub use answers::{TrustError, trust_line, trust_of};
pub use givens::{Givens, TrustForm};
pub use read::read_trust;
