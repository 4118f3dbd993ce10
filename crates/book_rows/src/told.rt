//! What a step is answered.
use guard_core::Finding;
use policy_book::Written;
use std::alloc::AllocError;
use std::process::Abort;
use verdict_words::Held;

/// What a step is answered: a change, a call whose verdict was kept, one that was judged, one on an object that is not there,
/// and one that there was no memory for.
#[derive(Clone, Copy, Debug)]
pub enum Told {
    Written(Written),
    Kept { at: u64, held: Held },
    Judged { at: u64, finding: Finding },
    NoObject { at: u64 },
    NoMemory,
}

/// Asserts that there is no row that comes to something else.
pub fn assert_none<R: Abort>(rt: &R, other: Result<String, AllocError>) -> Result<(), AllocError> {
    let other = other?;
    assert_eq!(rt; other.as_str(), "");
    Ok(())
}
