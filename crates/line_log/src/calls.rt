// The calls of a wire to a keeper, for contracts alone.
ghost use Rattle.std.specs.Prelude.{◌≡◌, ◌∷◌, ◌++◌, []};
ghost use Rattle.line_log.specs.LogCalls.{connect_call, exchange_call};
ghost use Rattle.line_log.specs.CallLogs.{call_of, calls_of};

use nx_io::{History, Reach};
use std::snapshot::Snapshot;

/// A call of a wire, and how it went.
#[derive(Drop)]
pub enum LoggedCall {
    /// It was connected to the address.
    Connected { address: History },
    /// It could not be.
    NotConnected { address: History },
    /// These bytes were to be sent, and these came back for them.
    Exchanged { request: History, answer: History },
}

impl LoggedCall {
    /// The call that connects to an address.
    pub fn connecting(address: &[u8], reach: Reach) -> LoggedCall
        ensures { call_of result ≡ connect_call address.now reach }
    {
        let address = History::of(address);
        match reach {
            Reach::Ready => LoggedCall::Connected { address },
            Reach::Failed => LoggedCall::NotConnected { address },
        }
    }

    /// The call that exchanges a line.
    pub fn exchanging(request: &[u8], answer: &[u8]) -> LoggedCall
        ensures { call_of result ≡ exchange_call request.now answer.now }
    {
        LoggedCall::Exchanged {
            request: History::of(request),
            answer: History::of(answer),
        }
    }
}

/// A list of calls that only contracts read. It takes no memory however long it grows: what stands before the last one is known, and
/// not kept.
#[derive(Drop)]
pub enum CallLog {
    /// No call.
    Start,
    /// One call more.
    Then {
        before: Snapshot<CallLog>,
        call: LoggedCall,
    },
}

impl CallLog {
    /// One call more. Compiled code does next to nothing for it.
    pub fn add(&mut self, call: LoggedCall)
        ensures { calls_of self.new ≡ calls_of self.old ++ call_of call ∷ [] }
    {
        let before = Snapshot::of(self);
        *self = CallLog::Then { before, call };
    }
}
