//! What is read is kept: a value that a text spells has a text that is read as it; and a policy that is read, whole or cut, is one that
//! the program writes, and reads again as it was.
#![tactic(auto)]

mod laws;

pub use laws::{policies_that_are_read_are_written, spelled_values_are_spellable};
