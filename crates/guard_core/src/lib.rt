//! The guard: what it answers of a case, and what it asks of authorities for that.
#![tactic(auto)]

mod asking;
mod findings;
mod guard;

pub use findings::{Finding, GuardError};
pub use guard::judge;
