//! The auditor: whether each of many recorded verdicts is the one that a journal gives at its point.
#![tactic(auto)]

mod audits;
mod judging;
mod laws;
mod records;
mod replays;
mod right_answers;

pub use audits::{Audited, audit};
pub use laws::{right_allowed_records_derive, unknown_answers_are_settled};
pub use records::{Answers, Given, Record, Recorded};
pub use replays::beginning_of;
pub use right_answers::answers_of;
