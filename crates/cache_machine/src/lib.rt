//! The cache of verdicts as a machine over steps: whatever actors do, in any order, each verdict that one is told is right
//! at its point of the journal. It is the plain model of the service that shares one journal and one cache.
#![tactic(auto)]

mod drives;
mod guards;
mod looks;
mod machine;
mod moves;
mod same;
mod stages;
mod steps;

pub use drives::drive;
pub use machine::Machine;
pub use steps::{Act, Answers, Outcome, Step, Told, ToldList};
