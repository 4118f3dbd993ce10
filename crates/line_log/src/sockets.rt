// A wire over a socket of the system.
ghost use Rattle.std.specs.Prelude.{◌≡◌, ◌⊎◌, ◌<◌, ◌≤◌, ◌∷◌, ◌++◌, [], length, take};
ghost use Rattle.nx_io.specs.Streams.{SendsAll, faults_after_reach};
ghost use Rattle.line_log.specs.LogCalls.{connect_call, exchange_call};
ghost use Rattle.line_log.specs.Inner.Answers.{Converses, HasStopped};

use crate::calls::{CallLog, LoggedCall};
use crate::lines::LONGEST_ANSWER;
use crate::wires::LogWire;
use nx_io::{Got, Reach, Sink, Source, StdSink, StdSource, SystemStream, send_all};
use std::marker::Model;
use std::net::{Net, TcpListener, TcpStream};
use std::time::Duration;

/// How many seconds a keeper may take to accept a connection, to take a piece of a line, and to give a piece of an answer.
const PATIENCE: u64 = 5;

/// A connection to a keeper.
#[derive(Drop)]
struct Connection {
    source: StdSource<SystemStream>,
    sink: StdSink<SystemStream>,
}

impl Connection {
    // A connection to an address, which is a host and a port, or `unix:` and the path of a local socket. None where that failed.
    fn open<R: Net<Listener = TcpListener, Stream = TcpStream>>(
        rt: &R,
        address: &[u8],
    ) -> Option<Connection> {
        let patience = Duration::from_secs(PATIENCE);
        let stream = SystemStream::connect_within(rt, address, patience).ok()?;
        stream.set_limit(patience).ok()?;
        let writer = stream.try_clone().ok()?;
        Some(Connection {
            source: StdSource::new(stream),
            sink: StdSink::new(writer),
        })
    }

    // Sends a line, and reads what comes back for it.
    fn exchange(&mut self, request: &[u8], answer: &mut [u8]) -> usize
        requires room { length answer.old ≡ 32 }
        ensures within { result ≤ 32 }
        ensures given { self.new.source.given ≡ self.old.source.given ++ take result answer.new }
        ensures conversed { (reach : Reach) × SendsAll reach self.old.sink.sent self.new.sink.sent request.now
            × (self.new.sink.faults ≡ faults_after_reach reach self.old.sink.faults)
            × Converses reach (take result answer.new) self.new.source.over self.old.source.faults
            self.new.source.faults }
    {
        converse(&mut self.source, &mut self.sink, request, answer)
    }
}

/// Sends a line, and reads what comes back for it into the front of the answer, up to a line feed, an end or a failure: so many bytes
/// came. None came where the line was not sent whole.
fn converse<S: Source, K: Sink>(
    source: &mut S,
    sink: &mut K,
    request: &[u8],
    answer: &mut [u8],
) -> usize
    requires room { length answer.old ≡ 32 }
    ensures within { result ≤ 32 }
    ensures given { S.given source.new ≡ S.given source.old ++ take result answer.new }
    ensures conversed { (reach : Reach) × SendsAll reach (K.sent sink.old) (K.sent sink.new) request.now
        × (K.faults sink.new ≡ faults_after_reach reach (K.faults sink.old))
        × Converses reach (take result answer.new) (S.over source.new) (S.faults source.old) (S.faults source.new) }
{
    match send_all(sink, request) {
        Reach::Ready => read_line(source, answer),
        Reach::Failed => 0,
    }
}

/// Reads a line of an answer, up to its line feed, an end or a failure.
fn read_line<S: Source>(source: &mut S, answer: &mut [u8]) -> usize
    requires room { length answer.old ≡ 32 }
    ensures within { result ≤ 32 }
    ensures given { S.given source.new ≡ S.given source.old ++ take result answer.new }
    ensures cause { HasStopped (take result answer.new) (S.over source.new) (S.faults source.old)
        (S.faults source.new) }
{
    let mut filled = 0;
    while filled < LONGEST_ANSWER && !answer[..filled].contains(&b'\n') {
        match source.read(&mut answer[filled..]) {
            Got::Bytes(count) => filled += count,
            Got::End | Got::Failed => return filled,
        }
    }
    filled
}

/// A wire over a socket. `docs/FORMATS.md`, "Logs", states the lines that go over it. Contracts see its calls.
#[derive(Drop)]
pub struct SocketWire {
    connection: Option<Connection>,
    log: CallLog,
}

impl Model for SocketWire {
    ghost use Rattle.std.specs.Prelude.{List};
    ghost use Rattle.line_log.specs.LogCalls.{LogCall};
    ghost use Rattle.line_log.specs.CallLogs.{calls_of};

    ghost Value = { List LogCall };

    ghost view = { λ w. calls_of w.log };
}

impl SocketWire {
    /// A wire that is not connected.
    pub fn new() -> SocketWire
        ensures { result ≡ [] }
    {
        SocketWire {
            connection: None,
            log: CallLog::Start,
        }
    }
}

impl LogWire for SocketWire {
    ghost calls = { λ w. w };

    fn connect<R: Net<Listener = TcpListener, Stream = TcpStream>>(
        &mut self,
        rt: &R,
        address: &[u8],
    ) -> Reach {
        self.connection = Connection::open(rt, address);
        let reach = match self.connection {
            Some(_) => Reach::Ready,
            None => Reach::Failed,
        };
        self.log.add(LoggedCall::connecting(address, reach));
        reach
    }

    fn exchange(&mut self, request: &[u8], answer: &mut [u8]) -> usize {
        let count = match &mut self.connection {
            Some(connection) => connection.exchange(request, answer),
            None => 0,
        };
        self.log
            .add(LoggedCall::exchanging(request, &answer[..count]));
        count
    }
}
