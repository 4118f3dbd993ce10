// Authorities, by the history of the calls.
// `docs/ARCHITECTURE.md`, "What contracts see of the outside", states the form that all such traits have.
ghost use Rattle.std.specs.Prelude.{◌≡◌};
ghost use Rattle.nal_term.specs.Trees.{formula_tree};
ghost use Rattle.authority_ask.specs.PanelCalls.{PanelHistory, asked, reach_call, share_call, share_of, with_call};
ghost use Rattle.authority_ask.specs.Panels.{IfMade};

use nal_term::Formula;
use nx_io::{Reach, Shared};
use std::net::{Net, TcpListener, TcpStream};
use std::rt::Clock as SystemClock;

/// What an authority answers.
#[derive(Clone, Copy, Debug, PartialEq, Eq)]
pub enum Ask {
    /// The statement holds now.
    Yes,
    /// It does not.
    No,
    /// The authority did not answer.
    Down,
    /// There was no memory for the ask.
    NoMemory,
}

/// The authorities of a policy, each behind a port.
pub trait Panel {
    /// Where it came from, and its calls since, with how each went, in order. Every panel tells them. A share begins with none; it came
    /// from one step deeper than its maker, with the addresses that its maker had reached then.
    ghost history: { Self → PanelHistory };

    /// Makes the authority at an address the one that is asked at a port.
    ///
    /// `Ready` sets the address of the port. `Failed` comes only where the panel failed in this call, and leaves all addresses.
    fn reach<R: Net<Listener = TcpListener, Stream = TcpStream> + SystemClock>(
        &mut self,
        rt: &R,
        port: u64,
        address: &[u8],
    ) -> Reach
        ensures history { history self.new ≡ with_call (history self.old) (reach_call port address.now result) };

    /// Asks the authority at a port whether a statement holds now.
    ///
    /// The ask is told with its answer, whichever it is. `Down` comes only where the panel failed in this call: that is what the
    /// history counts as a fault.
    fn ask<R: Net<Listener = TcpListener, Stream = TcpStream> + SystemClock>(
        &mut self,
        rt: &R,
        port: u64,
        statement: &Formula,
    ) -> Ask
        ensures history { history self.new
            ≡ with_call (history self.old)
            (asked (record { port = port; statement = formula_tree statement.now; answer = result })) };

    /// A panel of the same addresses, of which nothing was asked yet.
    ///
    /// `Failed` comes only where this panel failed in this call. `NoMemory` says that there was no memory for the share.
    fn share(&mut self) -> Shared<Self>
    where
        Self: Sized,
        ensures fresh { IfMade result (λ share. history share ≡ share_of (history self.old)) }
        ensures history { history self.new ≡ with_call (history self.old) (share_call result) };
}
