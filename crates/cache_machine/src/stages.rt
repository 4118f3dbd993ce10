//! How far each actor is, and what actors share.
use crate::steps::Told;
use nal_rules::{Case, Verdict};
use policy_history::{Event, Journal};
use std::alloc::Global;

/// How many slots there are for verdicts.
pub const SLOTS: u64 = 4096;

/// How many regions there are: 256 of objects, and then one for the store of each principal.
pub const REGIONS: u64 = 512;

/// A verdict of a case at a length of the journal.
#[derive(Clone, Copy, Debug, PartialEq, Eq)]
pub struct Kept {
    pub case: u64,
    pub point: u64,
    pub verdict: Verdict,
}

/// The number of a case, and that of its object.
#[derive(Clone, Copy, Debug, PartialEq, Eq)]
pub struct Place {
    pub case: u64,
    pub object: u64,
}

/// How far an actor is.
#[derive(Drop)]
pub enum Stage {
    /// After a denial that may be kept, it holds what it may still keep.
    Resting {
        kept: Option<Kept>,
    },
    Looked {
        place: Place,
        slot: Option<Kept>,
    },
    Counted {
        place: Place,
        slot: Option<Kept>,
        at: u64,
    },
    Half {
        place: Place,
        slot: Option<Kept>,
        at: u64,
        word: u64,
    },
    Missed,
    Raised {
        event: Event,
    },
    Holding {
        case: Case,
        number: Option<u64>,
        at: u64,
    },
    /// By a guard, it holds what it may still keep.
    Allowed {
        kept: Option<Kept>,
    },
}

/// An actor: its principal's number, its session, and how far it is.
#[derive(Drop)]
pub struct Actor {
    pub principal: u32,
    pub session: u64,
    pub stage: Stage,
}

/// What a step comes to.
#[derive(Drop)]
pub enum Move {
    Idle,
    Goes(Stage),
    Tells(Told, Stage),
    Fills(Kept, Stage),
    Raises(u64, Event),
    Writes(Event),
}

/// The journal, the slots and regions, who holds the lock, and the actors.
#[derive(Drop)]
pub struct World {
    pub alloc: Global,
    pub journal: Journal,
    pub slots: Vec<Option<Kept>>,
    pub regions: Vec<u64>,
    pub holder: Option<u64>,
    pub actors: Vec<Actor>,
}
