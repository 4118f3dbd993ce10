//! Changes between the two visits at the journal.
use crate::matter::NalMatter;
use crate::pens::Pen;
use crate::writing::Written;
use nx_io::Sink;
use policy_history::{Event, Spare};
use verdict_words::Pass;

/// A change that is accepted at the end of the journal that its pass has seen, with the number that its reply tells. All memory
/// for it is taken.
#[derive(Drop)]
pub(crate) struct Draft {
    pub(crate) pass: Pass<NalMatter>,
    pub(crate) principal: u32,
    pub(crate) event: Event,
    pub(crate) number: u64,
    pub(crate) spare: Spare,
}

/// What the first visit leads to.
#[derive(Drop)]
pub(crate) enum Begun<K: Sink> {
    /// The change is answered.
    Answered(Pass<NalMatter>, Written),
    /// The change is accepted, and its line is to be written with this pen.
    Accepted(Draft, Pen<K>),
}
