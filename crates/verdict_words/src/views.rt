//! What the seats at the table know. No value of these types is made but the items that contracts name.
use crate::places::{CasePlace, Held};
use std::collections::LinkedList;
use std::snapshot::Snapshot;

/// What a board was made with.
pub struct Origin<E, H> {
    pub setting: H,
    pub opening: LinkedList<E>,
    /// The number of the first session.
    pub first: u64,
}

/// The same, as the table is told it.
pub struct Key<E, H> {
    pub setting: Snapshot<H>,
    pub opening: Snapshot<Vec<E>>,
    pub first: u64,
}

impl<E, H> Drop for Key<E, H> {
    fn drop(self) {
        let Self {
            setting: _,
            opening: _,
            first: _,
        } = self;
    }
}

/// A step on a register, with its argument.
#[derive(Drop)]
pub enum RegisterStep {
    Read,
    Write(u64),
    Add(u64),
}

/// A step of a pass.
#[derive(Drop)]
pub enum Item {
    /// The words that one look loaded.
    Loaded {
        place: CasePlace,
        slot: u64,
        count: u64,
        object: u64,
        store: u64,
    },
    /// The length of the history when the pass was met.
    Met {
        length: u64,
    },
    /// A verdict was kept.
    Filled {
        case: u64,
        at: u64,
        held: Held,
    },
    /// A step on the register of an object, and what it answered.
    Ran {
        object: u64,
        step: RegisterStep,
        value: u64,
    },
}

/// What an atomic step does to its word.
#[derive(Drop)]
pub enum Action {
    Load,
    Store(u64),
    Swap(u64),
    FetchAdd(u64),
}

/// An atomic step on a word of a board.
#[derive(Drop)]
pub struct AtomicStep {
    /// The session that made it, or 0 where the owner of the history did.
    pub session: u64,
    pub word: u64,
    pub action: Action,
    /// What the word held before it.
    pub found: u64,
}

/// The words that a look has loaded so far.
pub enum Loading {
    Nothing,
    Slot {
        place: CasePlace,
        slot: u64,
    },
    Count {
        place: CasePlace,
        slot: u64,
        count: u64,
    },
    Object {
        place: CasePlace,
        slot: u64,
        count: u64,
        object: u64,
    },
}

/// What a pass knows.
pub struct PassView<E, H> {
    pub origin: Origin<E, H>,
    pub session: u64,
    /// A beginning of the history.
    pub seen: LinkedList<E>,
    /// The steps so far.
    pub trail: LinkedList<Item>,
    /// A beginning of the order of all atomic steps.
    pub known: LinkedList<AtomicStep>,
    pub loading: Loading,
}

/// What the seat of the book knows.
pub struct BookView<E, H> {
    pub origin: Origin<E, H>,
    pub history: LinkedList<E>,
    /// The number of the next session.
    pub next: u64,
    /// The session that was met last, or 0.
    pub turn: u64,
    /// The sessions that have published since they were met.
    pub lag: LinkedList<u64>,
    /// The region that an entry to come touches.
    pub raised: Option<u64>,
    /// A beginning of the order of all atomic steps.
    pub known: LinkedList<AtomicStep>,
    /// The passes that are being met, in the order in which they were taken in.
    pub held: LinkedList<PassView<E, H>>,
}

pub enum View<E, H> {
    Book(BookView<E, H>),
    Pass(PassView<E, H>),
    Spent,
}
