// How a log stands.

/// How a log stands.
#[derive(Clone, Copy)]
pub enum Standing {
    /// Its keeper was not reached yet.
    New,
    /// It was, and each line since then was kept.
    Reached,
    /// A call has failed: it takes no more.
    Failed,
}
