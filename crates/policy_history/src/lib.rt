//! The journal of the policy: which changes are accepted and which refused, what each accepted one leaves, and what the
//! guard judges at a point of the journal.
#![tactic(auto)]

mod cases;
mod changes;
mod copies;
mod events;
mod heads;
mod journal;
mod laws;
mod lines;
mod policies;
mod refusals;
mod spelled;
mod tables;
mod tallies;

pub use events::{Due, Entry, Event, Found, Refusal};
pub use heads::{Authorities, Authority, Head, MOST_PRINCIPALS, Principal, Principals};
pub use journal::{Journal, Spare};
pub use laws::{numbers_stay, refusals_come_in_order, replay_goes_by_steps, right_verdicts_stay};
pub use policies::hash_key;
pub use refusals::{MOST_ENTRIES, MOST_ENTRY_BYTES};
