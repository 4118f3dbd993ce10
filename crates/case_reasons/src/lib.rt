//! Why a call has its verdict at the end of a journal: which entries its object, its goal and its proof come from, and on what
//! each line of the proof rests.
#![tactic(auto)]

mod entries;
mod explanations;
mod laws;
mod lines;

pub use explanations::{Explained, Explanation, GoalReason, ObjectReason, ProofReason, explain};
pub use laws::{a_call_has_one_explanation, explained_calls_are_recorded};
pub use lines::LineReason;
