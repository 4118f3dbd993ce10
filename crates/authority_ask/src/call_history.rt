// The calls that were made of a panel, for contracts and for its counts.
ghost use Rattle.std.specs.Prelude.{◌≡◌};
ghost use Rattle.authority_ask.specs.PanelCalls.{asks_in, faults_in, is_ask, is_fault, new_history, share_of, with_call};
ghost use Rattle.authority_ask.specs.PanelLogs.{call_of};

use crate::panels::Ask;
use nal_term::Formula;
use nx_io::History;
use std::marker::Model;
use std::snapshot::Snapshot;

/// A call of a panel, and how it went.
#[derive(Drop)]
pub(crate) enum LoggedCall {
    /// This address was reached at the port.
    Reached {
        port: u64,
        address: History,
    },
    /// It could not be reached there.
    NotReached {
        port: u64,
        address: History,
    },
    /// The statement was asked at the port, and answered so.
    Asked {
        port: u64,
        statement: Snapshot<Formula>,
        answer: Ask,
    },
    /// A share was made.
    Shared,
    /// No share could be made.
    NotShared,
    /// There was no memory for a share.
    NoRoomToShare,
}

/// A list of calls that only contracts read. It stays as small as one call however long it grows: what stands before the last one is
/// known, and not kept.
#[derive(Drop)]
pub(crate) enum PanelLog {
    /// No call.
    Start,
    /// No call, of a share of a panel that had these.
    Share {
        maker: Snapshot<PanelLog>,
    },
    /// One call more.
    Then {
        before: Snapshot<PanelLog>,
        call: LoggedCall,
    },
}

/// The calls of a panel, how often it was asked, and how often it has failed.
#[derive(Drop)]
pub(crate) struct CallHistory {
    log: PanelLog,
    asks: u64,
    faults: u64,
}

impl Model for CallHistory {
    ghost use Rattle.std.specs.Prelude.{◌≡◌};
    ghost use Rattle.std.specs.Coded.{codes};
    ghost use Rattle.authority_ask.specs.Inner.TreeCodes.{coded_tree};
    ghost use Rattle.authority_ask.specs.PanelCalls.{PanelHistory, asks_in, faults_in};

    ghost Value = { PanelHistory };

    ghost coded = { Prim.hlevel (codes, coded_tree (Prim.hlevel codes)) };

    ghost use Rattle.authority_ask.specs.PanelLogs.{history_of};

    ghost view = { λ h. history_of h.log };

    ghost invariant = { λ h. (h.asks ≡ asks_in (history_of h.log).calls) × (h.faults ≡ faults_in (history_of h.log).calls) };
}

impl CallHistory {
    /// No call of a new panel.
    pub(crate) fn new() -> CallHistory
        ensures { result ≡ new_history }
    {
        CallHistory {
            log: PanelLog::Start,
            asks: 0,
            faults: 0,
        }
    }

    /// No call of a share of the panel with this history.
    pub(crate) fn of_share(&self) -> CallHistory
        ensures { result ≡ share_of self.now }
    {
        CallHistory {
            log: PanelLog::Share {
                maker: Snapshot::of(&self.log),
            },
            asks: 0,
            faults: 0,
        }
    }

    /// One call more.
    pub(crate) fn add(&mut self, call: LoggedCall)
        ensures { self.new ≡ with_call self.old (call_of call) }
    {
        if is_ask(&call) {
            self.asks = self.asks.saturating_add(1);
        }
        if is_fault(&call) {
            self.faults = self.faults.saturating_add(1);
        }
        let before = Snapshot::of(&self.log);
        self.log = PanelLog::Then { before, call };
    }

    /// How often was asked. The count stands still at its type's end.
    pub(crate) fn asks(&self) -> u64
        ensures { result ≡ asks_in self.now.calls }
    {
        self.asks
    }

    /// How often a call has failed. The count stands still at its type's end.
    pub(crate) fn faults(&self) -> u64
        ensures { result ≡ faults_in self.now.calls }
    {
        self.faults
    }
}

// Whether the call was an ask.
fn is_ask(call: &LoggedCall) -> bool
    ensures { result ≡ is_ask (call_of call.now) }
{
    matches!(call, LoggedCall::Asked { .. })
}

// Whether the call has failed.
fn is_fault(call: &LoggedCall) -> bool
    ensures { result ≡ is_fault (call_of call.now) }
{
    matches!(
        call,
        LoggedCall::NotReached { .. }
            | LoggedCall::NotShared
            | LoggedCall::Asked {
                answer: Ask::Down,
                ..
            }
    )
}
