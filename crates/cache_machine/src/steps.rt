//! What actors may try, and what they are told.
use nal_rules::{ItemList, Verdict};
use nal_term::Name;
use policy_history::{Event, Journal};

/// The answers to the ask lines of a proof, in their order: whether each was Yes. One that is missing is No. Contracts
/// see the list of them.
pub type Answers = ItemList<bool>;

/// What an actor may try. `docs/LOGIC.md`, "The machine of the cache", says for which actor each is, and what it does.
#[derive(Drop)]
pub enum Act {
    Write { event: Event },
    Look { op: Name, object: Name },
    Count,
    Snap { op: Name, object: Name },
    Answer { answers: Answers },
    Fill,
    Run,
    Raise { event: Event },
    Object,
    Store,
}

/// An act of the actor with this number, from 0.
#[derive(Drop)]
pub struct Step {
    pub actor: u64,
    pub act: Act,
}

/// A verdict that an actor was told: at which length of the journal, and whether it was found in a slot.
#[derive(Clone, Copy, Debug, PartialEq, Eq)]
pub struct Told {
    pub actor: u64,
    pub at: u64,
    pub hit: bool,
    pub verdict: Verdict,
}

/// The verdicts that were told, in their order. Contracts see the list of them.
pub type ToldList = ItemList<Told>;

/// What a list of steps leaves: the journal, what was told, and how many steps did nothing.
#[derive(Drop)]
pub struct Outcome {
    pub journal: Journal,
    pub told: ToldList,
    pub idle: u64,
}
