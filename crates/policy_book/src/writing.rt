//! What is answered to a change.
use policy_history::Refusal;

/// What is answered to a change.
#[derive(Clone, Copy, Debug, PartialEq, Eq)]
pub enum Written {
    /// It was made: the entry with the number `at`, counted from 1. The reply tells `number`.
    Done { at: u64, number: u64 },
    /// It was refused at the point `at`.
    Refused { at: u64, refusal: Refusal },
    /// There was no memory for it.
    NoMemory,
}
