// The calls that were made of a door, for contracts and for its counts.
ghost use Rattle.std.specs.Prelude.{◌≡◌, ◌∷◌, ◌++◌, []};
ghost use Rattle.nx_io.specs.DoorCalls.{faults_in, gave_in, is_fault, is_gift, new_origin, share_of};
ghost use Rattle.nx_io.specs.Histories.{call_of};

use crate::history::History;
use std::marker::Model;
use std::snapshot::Snapshot;

/// A call of a door, and how it went.
#[derive(Drop)]
pub(crate) enum LoggedCall {
    /// It listens at this address, with this patience.
    Listened { address: History, patience: u64 },
    /// It could not listen there.
    NotListened { address: History, patience: u64 },
    /// A share was made.
    Shared,
    /// No share could be made.
    NotShared,
    /// `next` gave a link.
    Gave,
    /// `next` answered that none is to come.
    GaveNoMore,
    /// `next` has failed.
    NotGiven,
    /// There is a link to this address.
    Dialed { address: History },
    /// There is none.
    NotDialed { address: History },
}

/// A list of calls that only contracts read. It stays as small as one call however long it grows: what stands before the last one is
/// known, and not kept.
#[derive(Drop)]
pub(crate) enum DoorLog {
    /// No call.
    Start,
    /// No call, of a share of a door that had these.
    Share {
        maker: Snapshot<DoorLog>,
    },
    /// One call more.
    Then {
        before: Snapshot<DoorLog>,
        call: LoggedCall,
    },
}

/// The calls of a door, how many links it gave, and how often it has failed.
#[derive(Drop)]
pub(crate) struct DoorHistory {
    log: DoorLog,
    gave: u64,
    faults: u64,
}

impl Model for DoorHistory {
    ghost use Rattle.std.specs.Prelude.{◌≡◌};
    ghost use Rattle.nx_io.specs.DoorCalls.{DoorCalls, faults_in, gave_in};
    ghost use Rattle.nx_io.specs.Histories.{calls_of, origin_of};

    ghost Value = { DoorCalls };

    ghost view = { λ h. record { origin = origin_of h.log; calls = calls_of h.log } };

    ghost invariant = { λ h. (h.gave ≡ gave_in (calls_of h.log)) × (h.faults ≡ faults_in (calls_of h.log)) };
}

impl DoorHistory {
    /// No call of a new door.
    pub(crate) fn new() -> DoorHistory
        ensures { result ≡ record { origin = new_origin; calls = [] } }
    {
        DoorHistory {
            log: DoorLog::Start,
            gave: 0,
            faults: 0,
        }
    }

    /// No call of a share of the door with this history.
    pub(crate) fn of_share(&self) -> DoorHistory
        ensures { result ≡ record { origin = share_of self.now.origin self.now.calls; calls = [] } }
    {
        DoorHistory {
            log: DoorLog::Share {
                maker: Snapshot::of(&self.log),
            },
            gave: 0,
            faults: 0,
        }
    }

    /// One call more.
    pub(crate) fn add(&mut self, call: LoggedCall)
        ensures { self.new ≡ record self.old { calls = self.old.calls ++ call_of call ∷ [] } }
    {
        if is_gift(&call) {
            self.gave = self.gave.saturating_add(1);
        }
        if is_fault(&call) {
            self.faults = self.faults.saturating_add(1);
        }
        let before = Snapshot::of(&self.log);
        self.log = DoorLog::Then { before, call };
    }

    /// How many links were given. The number stands still at its type's end.
    pub(crate) fn gave(&self) -> u64
        ensures { result ≡ gave_in self.now.calls }
    {
        self.gave
    }

    /// How often a call has failed. The count stands still at its type's end.
    pub(crate) fn faults(&self) -> u64
        ensures { result ≡ faults_in self.now.calls }
    {
        self.faults
    }
}

// Whether the call gave a link.
fn is_gift(call: &LoggedCall) -> bool
    ensures { result ≡ is_gift (call_of call.now) }
{
    matches!(call, LoggedCall::Gave)
}

// Whether the call has failed.
fn is_fault(call: &LoggedCall) -> bool
    ensures { result ≡ is_fault (call_of call.now) }
{
    matches!(
        call,
        LoggedCall::NotListened { .. }
            | LoggedCall::NotShared
            | LoggedCall::NotGiven
            | LoggedCall::NotDialed { .. }
    )
}
