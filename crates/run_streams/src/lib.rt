//! The input and the output of a run: a source is read whole, an answer to it or its refusal is written, and what was read and written
//! is told.
#![tactic(auto)]

mod flaws;
mod input;
mod notes;
mod refusals;
mod telling;
mod unread;

pub use flaws::Flaw;
pub use input::{ReadError, read_whole};
pub use notes::tell_note;
pub use refusals::InputRefusal;
pub use telling::{InputEnd, tell_refusal, tell_text};
pub use unread::Unread;
