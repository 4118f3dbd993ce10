//! The input of `audit`, the lines of records and their parts, and the line that is written of an audit.
#![tactic(auto)]

mod answer_letters;
mod answers;
mod laws;
mod read;
mod record_lines;
mod record_writer;
mod texts;
mod verdict_texts;

pub use answer_letters::read_answers;
pub use answers::{Told, audit_of, told_line};
pub use laws::right_lines_are_audited;
pub use read::{AuditError, AuditForm, read_audit, read_policy};
pub use record_lines::{Call, read_call, read_record};
pub use record_writer::{LONGEST_RECORD, record_line};
pub use texts::is_text;
pub use verdict_texts::fault_name;
