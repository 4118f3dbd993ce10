// A log, as a service uses it.
ghost use Rattle.std.specs.Prelude.{◌≡◌, ◌≤◌, ◌∷◌, ◌++◌, [], List, ℕ};
ghost use Rattle.nx_io.specs.Streams.{faults_after_reach};

use nx_io::{Reach, Sink};
use std::net::{Net, TcpListener, TcpStream};

/// A sink of whole lines, which others keep at an address. What is sent was kept by them.
pub trait Log: Sink {
    /// The addresses at which it was asked to be reached, in order.
    ghost asked: { Self → List (List ℕ) };

    /// Connects to the keeper at an address, and sends nothing. What becomes of writes is not said here of every log: `LineLog` says of itself
    /// that it takes nothing once this has failed.
    ///
    /// `Failed` comes only where the log failed in this call. The count of faults rises by one at `Failed` and at no other answer.
    fn reach<R: Net<Listener = TcpListener, Stream = TcpStream>>(
        &mut self,
        rt: &R,
        address: &[u8],
    ) -> Reach
        ensures asked { asked self.new ≡ asked self.old ++ address.now ∷ [] }
        ensures sent { Self.sent self.new ≡ Self.sent self.old }
        ensures synced { Self.synced self.new ≡ Self.synced self.old }
        ensures later { Self.faults self.old ≤ Self.faults self.new }
        ensures count { Self.faults self.new ≡ faults_after_reach result (Self.faults self.old) };
}
