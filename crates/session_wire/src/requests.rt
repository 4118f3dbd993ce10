use nal_term::{Name, Secret};
use nx_io::Bytes;

/// What a session asks for. A text is kept as it was sent; what it spells is found where the request is answered.
/// `docs/FORMATS.md`, "Request lines", states how each is written.
#[derive(Drop)]
pub enum Request {
    /// Opens the session for the principal with this name and this secret.
    Hello {
        name: Name,
        secret: Secret,
    },
    /// A principal, which is the caller or a part of it, says a formula.
    Say {
        principal: Bytes,
        formula: Bytes,
    },
    /// The caller gives a label to the principal with this name.
    Transfer {
        number: u64,
        to: Name,
    },
    Delete {
        number: u64,
    },
    NewObject {
        name: Name,
    },
    SetGoal {
        op: Name,
        object: Name,
        formula: Bytes,
    },
    ClearGoal {
        op: Name,
        object: Name,
    },
    SetProof {
        op: Name,
        object: Name,
        proof: Bytes,
    },
    ClearProof {
        op: Name,
        object: Name,
    },
    /// The authority of this port answers for a principal, which is the caller or a part of it.
    Bind {
        principal: Bytes,
        port: u64,
    },
    Unbind {
        principal: Bytes,
    },
    /// Asks for an operation on an object. `arg` is what is written or added.
    Call {
        op: Name,
        object: Name,
        arg: u64,
    },
    /// Asks whether the session has come to a point of the journal: its length is at least this number.
    See {
        number: u64,
    },
}
