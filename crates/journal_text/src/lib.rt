//! The policy as a person writes and reads it: request lines, reply lines, and the policy text.
#![tactic(auto)]

mod cut_reader;
mod events;
mod policy_entries;
mod policy_heads;
mod policy_laws;
mod policy_printer;
mod policy_reader;
mod policy_words;
mod replies;
mod request_lines;

pub use cut_reader::read_cut;
pub use events::event_of;
pub use policy_laws::{
    cut_policies_are_recovered, cut_texts_tell_one_policy, printed_policies_are_read_again,
    texts_tell_one_policy, whole_policies_are_recovered,
};
pub use policy_printer::{PolicyPrinter, policy_line, print_policy};
pub use policy_reader::{PolicyError, PolicyFront, read_front, read_policy, refusal_number};
pub use policy_words::split_word;
pub use replies::{cause_name, cause_text, fault_name, refusal_name, reply_line};
pub use request_lines::{LineError, lines_tell_one_request, read_request};
