//! The policy: journals, request lines, texts, bundles of labels and the machine of the cache, with answers worked out by hand. It has tests alone.
//!
//! Tables are texts. A table has parts, with an empty line between; each has a title, and then rows. A row stands on one line: what
//! is tried, an arrow, and what it comes to; a bar stands for a line feed. One driver for each kind of call gives what is tried as
//! a text, and one loop goes over the rows.
#![tactic(auto)]

#[cfg(test)]
mod cut_texts;
#[cfg(test)]
mod journals;
#[cfg(test)]
mod machines;
#[cfg(test)]
mod peers;
#[cfg(test)]
mod policies;
#[cfg(test)]
mod policy_texts;
#[cfg(test)]
mod replies;
#[cfg(test)]
mod request_lines;
#[cfg(test)]
mod stores;
#[cfg(test)]
mod tables;
