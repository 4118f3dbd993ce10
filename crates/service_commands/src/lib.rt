//! The commands that use the door: `serve`, which serves the sessions of its workers, and `client` and `import`, which talk
//! to a service.
#![tactic(auto)]

mod clients;
mod ends;
mod logged;
mod notes;
mod service;

pub use clients::{ClientEnd, TalkCall, client};
pub use ends::Ended;
pub use logged::{LoggedService, run_logged_service};
pub use service::{Service, run_service};
