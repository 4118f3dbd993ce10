//! The client's talks, the lines that are read for them, and inputs that are read whole, over links, doors, sources and sinks in memory,
//! with values worked out by hand. It has tests alone.
#![tactic(auto)]

#[cfg(test)]
mod sources;
#[cfg(test)]
mod talks;
