//! Proofs as numbered lines.
#![tactic(auto)]

mod lines;
mod proofs;
mod rules;

pub use lines::{Line, Refs};
pub use proofs::{Proof, PushError};
pub use rules::Rule;
