use nal_rules::Cause;

/// What the guard finds of a case.
#[derive(Clone, Copy, Debug, PartialEq, Eq)]
pub enum Finding {
    /// The call is allowed. So many ask lines were answered Yes.
    Allowed { asks: u32 },
    /// The call is denied.
    Denied(Cause),
}

/// Why the guard found nothing.
#[derive(Clone, Copy, Debug, PartialEq, Eq)]
pub enum GuardError {
    /// The authority of an ask line did not answer. Lines are numbered from 1.
    Down { line: u64 },
    /// There was no memory.
    Memory,
}
