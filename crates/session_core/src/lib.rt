//! Sessions: what a session is answered, request by request.
#![tactic(auto)]

mod answers;
mod board_calls;
mod board_serving;
mod board_session;
mod ends;
mod findings;
mod known;
mod lines;
mod reaching;
mod records;
mod serving;
mod sitting;
mod told_laws;
mod worked_days;

pub use answers::Session;
pub use board_serving::{Report, serve_link};
pub use board_session::Beside;
pub use ends::SessionEnd;
pub use lines::{Asking, answer_all};
pub use reaching::reach_all;
pub use records::RecordKeeper;
pub use serving::serve_on;
pub use told_laws::{
    downs_are_told, only_allowed_calls_run_and_only_changes_add, told_replies_are_earned,
    what_was_told_stays_told,
};
