// The calls of wires, for contracts alone.
ghost use Rattle.std.specs.Prelude.{◌≡◌, ◌∷◌, ◌++◌, []};
ghost use Rattle.authority_ask.specs.WireCalls.{connect_call, exchange_call};
ghost use Rattle.authority_ask.specs.WireLogs.{wire_call_of, wire_calls_of};

use nx_io::{History, Reach};
use std::snapshot::Snapshot;

/// A call of wires, and how it went.
#[derive(Drop)]
pub enum LoggedWireCall {
    /// The port was connected to the address.
    Connected {
        port: u64,
        address: History,
    },
    /// It could not be.
    NotConnected {
        port: u64,
        address: History,
    },
    /// The connection of the port was let go.
    Disconnected {
        port: u64,
    },
    /// A line was to be asked at the port and address, and these bytes came back for it.
    Exchanged {
        port: u64,
        address: History,
        question: History,
        given: History,
    },
}

impl LoggedWireCall {
    /// The call that connects a port to an address.
    pub fn connecting(port: u64, address: &[u8], reach: Reach) -> LoggedWireCall
        ensures { wire_call_of result ≡ connect_call port address.now reach }
    {
        let address = History::of(address);
        match reach {
            Reach::Ready => LoggedWireCall::Connected { port, address },
            Reach::Failed => LoggedWireCall::NotConnected { port, address },
        }
    }

    /// The call that exchanges a line.
    pub fn exchanging(port: u64, address: &[u8], question: &[u8], given: &[u8]) -> LoggedWireCall
        ensures { wire_call_of result ≡ exchange_call port address.now question.now given.now }
    {
        LoggedWireCall::Exchanged {
            port,
            address: History::of(address),
            question: History::of(question),
            given: History::of(given),
        }
    }
}

/// A list of calls that only contracts read. It takes no memory however long it grows: what stands before the last one is
/// known, and not kept.
#[derive(Drop)]
pub enum WireLog {
    /// No call.
    Start,
    /// One call more.
    Then {
        before: Snapshot<WireLog>,
        call: LoggedWireCall,
    },
}

impl WireLog {
    /// One call more. Compiled code does next to nothing for it.
    pub fn add(&mut self, call: LoggedWireCall)
        ensures { wire_calls_of self.new ≡ wire_calls_of self.old ++ wire_call_of call ∷ [] }
    {
        let before = Snapshot::of(self);
        *self = WireLog::Then { before, call };
    }
}
