//! The generated load of the service, run in threads: a worker for each principal of the load, over one book.
#![tactic(auto)]

mod counting;
mod running;
mod stage;

pub use running::drill_text;
