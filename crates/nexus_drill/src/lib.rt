//! The generated loads. One is of the machine of the cache: steps that are drawn from a number, and the line that tells of them.
//! The other is of the service: the requests of each worker, drawn too, and the line of what comes of them.
#![tactic(auto)]

mod core_load;
mod drawn_steps;
mod draws;
mod opening;
mod outcomes;
mod worker_frames;
mod worker_requests;

pub use core_load::core_text;
pub use outcomes::{DrillTotals, drill_line, drill_totals};
pub use worker_frames::drill_frames;
pub use worker_requests::drill_principal;
