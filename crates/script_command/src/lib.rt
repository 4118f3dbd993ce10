//! The command `script`: reads a policy and requests, answers them, and writes the replies and then the policy.
#![tactic(auto)]

mod scripts;

pub use scripts::{PlainEnd, script};
