//! The client of a service: request lines, or a peer's bundle, to frames, and one talk over a link.
#![tactic(auto)]

mod ends;
mod imports;
mod inputs;
mod laws;
mod line_frames;
mod requests;
mod talks;

pub use ends::{Talk, TalkEnd};
pub use inputs::{TalkInput, read_input};
pub use laws::{bytes_spell_replies_in_one_way, talks_keep_their_order};
pub use line_frames::request_of_line;
pub use requests::{Requests, RequestsError};
pub use talks::talk;
