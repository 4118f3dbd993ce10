//! What is wrong with a line.

/// What is wrong with a line of an input, by its name. `docs/FORMATS.md`, "What is wrong with an input", lists the names.
#[derive(Clone, Copy, Debug, PartialEq, Eq)]
pub struct Flaw {
    /// The byte of the line at which it stands, counted from 1.
    pub byte: u64,
    pub name: &'static str,
}
