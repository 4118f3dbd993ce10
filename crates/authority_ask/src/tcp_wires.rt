// Connections to authorities over TCP.
ghost use Rattle.std.specs.Prelude.{◌≡◌, ◌<◌, [], IfOk, length, take};
ghost use Rattle.authority_ask.specs.WireLogs.{wire_calls_of};

use crate::connections::Connection;
use crate::wire_log::{LoggedWireCall, WireLog};
use crate::wires::Wires;
use nx_io::Reach;
use std::alloc::{AllocError, Global};
use std::marker::Model;
use std::net::{Net, TcpListener, TcpStream};
use std::rt::Clock as SystemClock;

/// How many ports there are.
const PORTS: u64 = 16;

/// A connection for each port, which is made anew where it can't be used again. `docs/FORMATS.md`, "Authorities", states the lines
/// that go over it. Contracts see its calls.
#[derive(Drop)]
pub struct TcpWires {
    connections: Vec<Option<Connection>>,
    log: WireLog,
}

impl Model for TcpWires {
    ghost use Rattle.std.specs.Prelude.{◌≡◌, List, length};
    ghost use Rattle.authority_ask.specs.WireCalls.{WireCall};
    ghost use Rattle.authority_ask.specs.WireLogs.{wire_calls_of};

    ghost Value = { List WireCall };

    ghost view = { λ w. wire_calls_of w.log };

    ghost invariant = { λ w. length w.connections.items ≡ 16 };
}

impl TcpWires {
    /// Wires without a connection. An `Err` is want of memory.
    pub fn new(alloc: Global) -> Result<TcpWires, AllocError>
        ensures { IfOk result (λ wires. wires ≡ []) }
    {
        Ok(TcpWires {
            connections: no_connections(alloc)?,
            log: WireLog::Start,
        })
    }
}

impl Wires for TcpWires {
    ghost calls = { λ w. w };

    fn connect<R: Net<Listener = TcpListener, Stream = TcpStream> + SystemClock>(
        &mut self,
        rt: &R,
        port: u64,
        address: &[u8],
    ) -> Reach {
        let reach = match Connection::open(rt, address) {
            Some(connection) => {
                self.connections[port as usize] = Some(connection);
                Reach::Ready
            }
            None => Reach::Failed,
        };
        let call = LoggedWireCall::connecting(port, address, reach);
        self.log.add(call);
        reach
    }

    fn disconnect(&mut self, port: u64) {
        self.connections[port as usize] = None;
        self.log.add(LoggedWireCall::Disconnected { port });
    }

    fn exchange<R: Net<Listener = TcpListener, Stream = TcpStream> + SystemClock>(
        &mut self,
        rt: &R,
        port: u64,
        address: &[u8],
        question: &[u8],
        answer: &mut [u8],
    ) -> usize {
        let connection = match self.connections[port as usize].take() {
            Some(connection) => Some(connection),
            None => Connection::open(rt, address),
        };
        let (count, kept) = match connection {
            Some(connection) => connection.exchange(question, answer),
            None => (0, None),
        };
        self.connections[port as usize] = kept;
        let call = LoggedWireCall::exchanging(port, address, question, &answer[..count]);
        self.log.add(call);
        count
    }

    fn share(&self, alloc: Global) -> Result<TcpWires, AllocError> {
        TcpWires::new(alloc)
    }
}

/// No connection for each port.
fn no_connections(alloc: Global) -> Result<Vec<Option<Connection>>, AllocError>
    ensures { IfOk result (λ connections. length connections.items ≡ 16) }
{
    let mut connections = Vec::with_capacity(alloc, 16)?;
    for _port in 0..PORTS {
        connections.push(None)?;
    }
    Ok(connections)
}
