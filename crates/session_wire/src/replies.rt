/// What a session is answered. `at` is always a length of the journal: the point at which the answer holds. Causes, faults
/// and refusals are told by their numbers. `docs/FORMATS.md`, "Reply lines", states how each is written.
#[derive(Clone, Copy, Debug, PartialEq, Eq)]
pub enum Reply {
    /// The session is opened, and this is its number.
    Welcome {
        session: u64,
        at: u64,
    },
    /// The change is entry `at` of the journal; the number is that of a label, an object or a case, or 0.
    Done {
        at: u64,
        number: u64,
    },
    /// The call is allowed. `hit` is 1 where a kept verdict answered it; `value` is what the register held.
    Allowed {
        at: u64,
        hit: u64,
        value: u64,
    },
    /// The call is denied. Line and fault are 0 where the cause has none.
    Denied {
        at: u64,
        cause: u64,
        line: u64,
        fault: u64,
    },
    /// The request is refused.
    Refused {
        at: u64,
        number: u64,
    },
    /// The authority that the proof's line asks gave no answer.
    Down {
        at: u64,
        line: u64,
    },
    /// There was no memory for the request.
    NoMemory,
    /// What was sent is no request; the place is a byte of what the session sent, from 0.
    Bad {
        place: u64,
    },
    /// The session has come to this length of the journal.
    Seen {
        at: u64,
    },
}
