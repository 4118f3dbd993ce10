//! The policy of the entries of a journal that still matter: it comes to the same for whoever asks.
#![tactic(auto)]

mod compaction;
mod counts;
mod laws;
mod marks;
mod slots;

pub use compaction::{Compacted, compact};
pub use laws::compactions_stand;
