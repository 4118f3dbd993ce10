//! The store of proofs: the proof of each subject, operation and object, under its case number.
#![tactic(auto)]

mod cases;

pub use cases::{MOST_CASES, ProofStore};
