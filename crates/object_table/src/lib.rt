//! The table of objects: which objects there are, under which numbers, and who owns each.
#![tactic(auto)]

mod objects;

pub use objects::{MOST_OBJECTS, ObjectTable};
