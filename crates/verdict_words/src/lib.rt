//! Atomic words under a stated rule, for any subject matter.
//!
//! One owner lets a history grow, entry by entry, behind a lock of its own. Any number of sessions keep verdicts of cases
//! in slots, and find them again without the lock. A verdict that is found is right on a beginning of the history that
//! the finder has then seen, under every schedule, and no older than the call: all atomic steps stand in one order, and each
//! call says where its own do.
//!
//! The owner holds the `BookSeat`, each session a `Pass`; the `Board` is shared. A `Roll` has the passes of sessions that have
//! not begun. None but `Board::make` and `Board::enroll` takes memory.
#![tactic(auto)]

mod board;
mod book;
mod laws;
mod look;
mod mark;
mod matter;
mod naming;
mod padded;
mod pass;
mod places;
mod registers;
mod rolls;
mod seat;
mod settle;
mod steps;
mod views;

pub use board::Board;
pub use laws::what_is_found_is_fresh;
pub use mark::Mark;
pub use matter::Matter;
pub use naming::Naming;
pub use pass::Pass;
pub use places::{CasePlace, Held, Look};
pub use rolls::Roll;
pub use seat::BookSeat;
pub use views::{Action, AtomicStep, Item, Origin, RegisterStep};
