//! The service: workers in threads, each with a door, a panel and a keeper of records, over one book.
#![tactic(auto)]

mod closing;
mod gathered;
mod hiring;
mod hosting;
mod means;
mod outside;
mod reporting;
mod service;
mod shares;
mod threads;
mod worker;

pub use closing::{ServeEnd, Served};
pub use hosting::{Hosted, host};
pub use means::Means;
pub use outside::Outside;
pub use reporting::{Reports, ServedSession};
pub use service::serve;
