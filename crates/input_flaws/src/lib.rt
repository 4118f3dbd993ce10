//! What is wrong with the line by which an input is refused: its name, and the byte at which it stands.
#![tactic(auto)]

mod flaws;
mod laws;
mod policy_flaws;
mod proof_flaws;

pub use flaws::{flaw_at, formula_flaw, line_flaw};
pub use laws::a_line_has_one_flaw;
pub use policy_flaws::{front_flaw, policy_flaw};
pub use proof_flaws::proof_flaw;
