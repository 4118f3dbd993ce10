//! Proofs that are checked and found, and the inputs of `prove` and `trust`, with answers worked out by hand. It has tests alone.
#![tactic(auto)]

#[cfg(test)]
mod checking;
#[cfg(test)]
mod prove_inputs;
#[cfg(test)]
mod proving;
#[cfg(test)]
mod rows;
#[cfg(test)]
mod trust_inputs;
#[cfg(test)]
mod valuations;
