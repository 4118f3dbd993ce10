//! What sessions are told, and the auditor: each reply of a call makes a record that the auditor finds right, and what a session had
//! recorded is the lines of such records. And peers: what a peer says of a bundle stands in its name, in order.
#![tactic(auto)]

mod laws;

pub use laws::{
    peers_say_their_labels, recorded_lines_are_audited, recorded_lines_are_right,
    replies_make_right_records,
};
