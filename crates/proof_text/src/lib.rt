//! The texts of proofs: what they spell, and the canonical text of each.
#![tactic(auto)]

mod columns;
mod heads;
mod laws;
mod lengths;
mod lines;
mod names;
mod parts;
mod printer;
mod read;
mod segments;

pub use columns::{formula_at, segment_column};
pub use laws::{refused_texts_have_one_error, texts_spell_one_proof};
pub use lengths::{proof_fits, proof_length};
pub use printer::print_proof;
pub use read::{ProofError, read_proof};
pub use segments::{end_segment, segment_line};
