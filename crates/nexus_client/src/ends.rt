//! How a talk ends.

/// How a talk ended.
#[derive(Clone, Copy, Debug, PartialEq, Eq)]
pub enum TalkEnd {
    /// Each request was answered, and each reply's line written.
    Done,
    /// The door has failed: there is no link.
    Unreached,
    /// The link has failed.
    Broken,
    /// The link ended before a whole reply, or what came is no reply.
    Ended,
    /// The sink has failed.
    Unwritten,
    /// There was no memory for the line of a reply.
    Memory,
}

/// What is left of a talk: the link that was dialed, if any, which is closed; and how the talk ended.
#[derive(Drop)]
pub struct Talk<L> {
    pub dialed: Option<L>,
    pub end: TalkEnd,
}
