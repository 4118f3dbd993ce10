// A connection to an authority.
ghost use Rattle.std.specs.Prelude.{◌≡◌, ◌≤◌, [], Bool, IfSome, length, take};
ghost use Rattle.authority_ask.specs.Exchanges.{answer_line};
ghost use Rattle.authority_ask.specs.Inner.Connections.{HasAnswered};

use crate::conversations::{Reply, converse, reply_in};
use nx_io::{StdSink, StdSource, SystemStream};
use std::marker::Model;
use std::net::{Net, TcpListener, TcpStream};
use std::time::Duration;

/// How many seconds an authority may take to accept a connection, to take a piece of a question, and to give a piece of an
/// answer.
const PATIENCE: u64 = 5;

/// A connection over which each question has had its answer. Contracts see what was sent and what came back.
#[derive(Drop)]
pub struct Connection {
    source: StdSource<SystemStream>,
    sink: StdSink<SystemStream>,
}

impl Model for Connection {
    ghost use Rattle.authority_ask.specs.Inner.Connections.{Exchanged};

    ghost Value = { Exchanged };

    ghost use Rattle.authority_ask.specs.Inner.Conversations.{InStep};

    ghost view = { λ c. record { sent = c.sink.sent; given = c.source.given } };

    ghost invariant = { λ c. InStep c.sink.sent c.source.given };
}

impl Connection {
    /// Connects to the authority at an address, which is a host and a port, or `unix:` and the path of a local socket. None where
    /// that failed.
    pub fn open<R: Net<Listener = TcpListener, Stream = TcpStream>>(
        rt: &R,
        address: &[u8],
    ) -> Option<Connection>
        ensures { IfSome result (λ connection. connection ≡ record { sent = []; given = [] }) }
    {
        let patience = Duration::from_secs(PATIENCE);
        Connection::over(SystemStream::connect_within(rt, address, patience).ok()?)
    }

    /// A connection over a stream. None where the stream can't be set up for it.
    fn over(stream: SystemStream) -> Option<Connection>
        ensures { IfSome result (λ connection. connection ≡ record { sent = []; given = [] }) }
    {
        stream.set_limit(Duration::from_secs(PATIENCE)).ok()?;
        let writer = stream.try_clone().ok()?;
        Some(Connection {
            source: StdSource::new(stream),
            sink: StdSink::new(writer),
        })
    }

    /// Sends a line, and reads what comes back for it into the front of the answer: so many bytes came. The connection comes back
    /// where it can be used again: where one line with an answer came, and nothing behind it.
    pub fn exchange(self, question: &[u8], answer: &mut [u8]) -> (usize, Option<Connection>)
        requires { length answer.old ≡ 16 }
        ensures within { result.0 ≤ 16 }
        ensures kept { IfSome result.1
            (λ now. (affirmed : Bool) × (take result.0 answer.new ≡ answer_line affirmed)
            × HasAnswered self now question.now affirmed) }
    {
        let Connection {
            mut source,
            mut sink,
        } = self;
        let count = converse(&mut source, &mut sink, question, answer);
        match reply_in(&answer[..count]) {
            Reply::Line { .. } => (count, Some(Connection { source, sink })),
            Reply::LineAndMore { .. } | Reply::Broken => (count, None),
        }
    }
}
