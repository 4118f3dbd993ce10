//! What the service meets outside: devices, frames, authorities and what the guard asks of them, in memory and over TCP. It has tests
//! alone.
#![tactic(auto)]

#[cfg(test)]
mod devices;
#[cfg(test)]
mod frames;
#[cfg(test)]
mod guarding;
#[cfg(test)]
mod panels;
#[cfg(test)]
mod tables;
#[cfg(test)]
mod texts;
