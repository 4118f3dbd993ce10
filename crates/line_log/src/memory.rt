// A wire to a keeper in memory.
ghost use Rattle.std.specs.Prelude.{◌≡◌, ◌≤◌, ◌∷◌, ◌++◌, [], length, take};
ghost use Rattle.line_log.specs.LogCalls.{connect_call, exchange_call};

use crate::calls::{CallLog, LoggedCall};
use crate::lines::kept_line;
use crate::wires::LogWire;
use nx_io::Reach;
use std::alloc::Global;
use std::marker::Model;
use std::net::{Net, TcpListener, TcpStream};

/// A wire to a keeper in memory, which keeps so many lines, and then answers nothing. It keeps what it was sent, as far as there is memory.
#[derive(Drop)]
pub struct MemWire {
    room: u64,
    count: u64,
    is_connected: bool,
    requests: Vec<u8>,
    log: CallLog,
}

impl Model for MemWire {
    ghost use Rattle.std.specs.Prelude.{List};
    ghost use Rattle.line_log.specs.LogCalls.{LogCall};
    ghost use Rattle.line_log.specs.CallLogs.{calls_of};

    ghost Value = { List LogCall };

    ghost view = { λ w. calls_of w.log };
}

impl MemWire {
    /// A wire of which nothing was asked, to a keeper that keeps so many lines.
    pub fn new(alloc: Global, room: u64) -> MemWire
        ensures { result ≡ [] }
    {
        MemWire {
            room,
            count: 0,
            is_connected: false,
            requests: Vec::new(alloc),
            log: CallLog::Start,
        }
    }

    /// What was sent.
    pub fn requests(&self) -> &[u8] {
        self.requests.as_slice()
    }

    // The answer to one request more: so many bytes it has.
    fn answer(&mut self, answer: &mut [u8]) -> usize
        requires room { length answer.old ≡ 32 }
        ensures within { result ≤ 32 }
        ensures room { length answer.new ≡ 32 }
        ensures same { self.new ≡ self.old }
    {
        if !self.is_connected || self.count >= self.room {
            return 0;
        }
        self.count += 1;
        let line = kept_line(self.count);
        answer[..line.len()].copy_from_slice(line.as_slice());
        line.len()
    }
}

impl LogWire for MemWire {
    ghost calls = { λ w. w };

    /// As of any wire. It always is connected.
    fn connect<R: Net<Listener = TcpListener, Stream = TcpStream>>(
        &mut self,
        _rt: &R,
        address: &[u8],
    ) -> Reach {
        self.is_connected = true;
        self.log.add(LoggedCall::connecting(address, Reach::Ready));
        Reach::Ready
    }

    /// As of any wire.
    fn exchange(&mut self, request: &[u8], answer: &mut [u8]) -> usize {
        let _kept = self.requests.extend_from_slice(request);
        let count = self.answer(answer);
        self.log
            .add(LoggedCall::exchanging(request, &answer[..count]));
        count
    }
}
