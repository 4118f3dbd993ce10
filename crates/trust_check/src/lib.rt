//! What principals that are not trusted could reach by a proof, if they said anything at all.
#![tactic(auto)]

mod analysis;
mod answers;
mod valuation;

pub use analysis::trust;
pub use answers::Trust;
