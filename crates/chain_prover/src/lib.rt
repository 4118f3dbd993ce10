//! Finds a shortest chain of delegations by which a goal follows from labels, and writes its proof.
#![tactic(auto)]

mod answers;
mod chains;
mod facts;
mod grants;
mod lines;
mod paths;
mod principals;
mod search;

pub use answers::ChainError;
pub use chains::find_chain;
