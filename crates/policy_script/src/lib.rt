//! The input of `script`: a policy and the requests of numbered sessions; and what is written of them.
#![tactic(auto)]

mod input;
mod output;

pub use input::{Script, ScriptError, read_script};
pub use output::script_text;
