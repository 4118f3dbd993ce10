// The way to whoever keeps a log, by the history of its calls.
// `docs/ARCHITECTURE.md`, "What contracts see of the outside", states the form that all such traits have.
ghost use Rattle.std.specs.Prelude.{◌≡◌, ◌≤◌, ◌∷◌, ◌++◌, [], List, length, take};
ghost use Rattle.line_log.specs.LogCalls.{LogCall, connect_call, exchange_call};

use nx_io::Reach;
use std::net::{Net, TcpListener, TcpStream};

/// The way to a keeper of lines.
pub trait LogWire {
    /// Each call with how it went, in order: where was connected, and each line that was to be sent with what came back for it.
    ghost calls: { Self → List LogCall };

    /// Connects to the keeper at an address, in place of an earlier connection.
    fn connect<R: Net<Listener = TcpListener, Stream = TcpStream>>(
        &mut self,
        rt: &R,
        address: &[u8],
    ) -> Reach
        ensures { calls self.new ≡ calls self.old ++ connect_call address.now result ∷ [] };

    /// Sends a line, with its line feed, and reads what comes back for it up to a line feed: so many bytes stand at the front of the
    /// answer. None came where it is not connected or could not send the whole line.
    fn exchange(&mut self, request: &[u8], answer: &mut [u8]) -> usize
        requires room { length answer.old ≡ 32 }
        ensures within { result ≤ 32 }
        ensures told { calls self.new ≡ calls self.old ++ exchange_call request.now (take result answer.new) ∷ [] };
}
