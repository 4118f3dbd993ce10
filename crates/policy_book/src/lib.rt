//! The book of the policy: the journal with the seat of its board, and the sink of its text, behind two locks.
//!
//! Each accepted change is one entry of the journal and one step of the board. Its line in the policy text goes out and is synced
//! before it is made, so the text that lasts has each change that was answered.
//!
//! A change takes the writer's lock. It visits the journal twice, under the journal's lock: it is decided at the first visit, where
//! it takes the sink along, and made at the second, where it puts the sink back. Its line is written between the visits, while the
//! journal's lock is free. A case is copied and a pass is met under the journal's lock alone, so no look at the policy waits for a
//! disk.
#![tactic(auto)]

mod access;
mod book;
mod drafts;
mod matter;
mod naming;
mod pens;
mod seated;
mod shared;
mod shelf;
mod snapping;
mod turns;
mod verdicts;
mod visits;
mod writing;

pub use access::{BookAccess, LockedBook};
pub use book::Book;
pub use matter::NalMatter;
pub use naming::BookNaming;
pub use shared::SharedBook;
pub use snapping::Snapped;
pub use verdicts::held_of;
pub use writing::Written;
