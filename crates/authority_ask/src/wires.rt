// Connections to authorities, by the history of their calls.
// `docs/ARCHITECTURE.md`, "What contracts see of the outside", states the form that all such traits have.
ghost use Rattle.std.specs.Prelude.{◌≡◌, ◌<◌, ◌≤◌, ◌∷◌, ◌++◌, [], IfOk, List, length, take};
ghost use Rattle.authority_ask.specs.WireCalls.{WireCall, connect_call, disconnected, exchange_call};

use nx_io::Reach;
use std::alloc::{AllocError, Global};
use std::net::{Net, TcpListener, TcpStream};
use std::rt::Clock as SystemClock;

/// Connections to the authorities of a panel, one behind each port below 16.
pub trait Wires {
    /// Each call with how it went, in order: where was connected, and each line that was to be asked, where it went and what came
    /// back for it. All wires tell them.
    ghost calls: { Self → List WireCall };

    /// Connects to an address, and keeps the connection for the port in place of an earlier one. A failure leaves that.
    fn connect<R: Net<Listener = TcpListener, Stream = TcpStream> + SystemClock>(
        &mut self,
        rt: &R,
        port: u64,
        address: &[u8],
    ) -> Reach
        requires { port < 16 }
        ensures { calls self.new ≡ calls self.old ++ connect_call port address.now result ∷ [] };

    /// Lets the connection of a port go, if there is one.
    fn disconnect(&mut self, port: u64)
        requires { port < 16 }
        ensures { calls self.new ≡ calls self.old ++ disconnected port ∷ [] };

    /// Sends a line over the connection of a port, or over a new one to the address where there is none, and reads what comes back
    /// for it, up to a line feed: so many bytes stand at the front of the answer. None came where it could not connect or send.
    /// A connection is kept where its line came alone and is a right answer.
    fn exchange<R: Net<Listener = TcpListener, Stream = TcpStream> + SystemClock>(
        &mut self,
        rt: &R,
        port: u64,
        address: &[u8],
        question: &[u8],
        answer: &mut [u8],
    ) -> usize
        requires port { port < 16 }
        requires room { length answer.old ≡ 16 }
        ensures within { result ≤ 16 }
        ensures told { calls self.new
            ≡ calls self.old ++ exchange_call port address.now question.now (take result answer.new) ∷ [] };

    /// Wires without a connection and without a call. An `Err` is want of memory.
    fn share(&self, alloc: Global) -> Result<Self, AllocError>
    where
        Self: Sized,
        ensures { IfOk result (λ share. calls share ≡ []) };
}
