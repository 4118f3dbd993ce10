//! Whole runs of the program, over streams, a door and a panel in memory: what is written, what peers are sent, and the status. It has tests
//! alone.
#![tactic(auto)]

#[cfg(test)]
mod commands;
#[cfg(test)]
mod days;
#[cfg(test)]
mod holding;
#[cfg(test)]
mod kinds;
#[cfg(test)]
mod recorder;
#[cfg(test)]
mod runs;
#[cfg(test)]
mod scripts;
#[cfg(test)]
mod services;
#[cfg(test)]
mod surroundings;
