//! The generated loads: their requests, their lines, and runs over threads, with values worked out apart. It has tests alone.
#![tactic(auto)]

#[cfg(test)]
mod core_loads;
#[cfg(test)]
mod served_loads;
#[cfg(test)]
mod worker_loads;
