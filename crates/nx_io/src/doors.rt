// Where links come from, by the history of the calls.
// `docs/ARCHITECTURE.md`, "What contracts see of the outside", states the form that all such traits have.
ghost use Rattle.std.specs.Prelude.{◌≡◌, ◌∷◌, ◌++◌, [], List, None, Option, Some};
ghost use Rattle.nx_io.specs.Links.{IsFreshLink};
ghost use Rattle.nx_io.specs.DoorCalls.{DoorCall, DoorOrigin, dial_call, gave_in, listen_call, next_call, share_call, share_of};
ghost use Rattle.nx_io.specs.Doors.{Gives, IfDialed, IfGiven, IfMade};

use crate::links::Link;
use crate::streams::{Reach, Shared};
use std::fs::Files;
use std::net::{Net, TcpListener, TcpStream};
use std::rt::Clock;

/// What is answered where the next link is asked for.
#[derive(Drop)]
pub enum Next<L> {
    /// The link.
    Link(L),
    /// There is no link to come.
    NoMore,
    /// The door has failed.
    Failed,
}

/// What is answered where an address is dialed.
#[derive(Drop)]
pub enum Dial<L> {
    /// The link to it.
    Link(L),
    /// The door has failed.
    Failed,
}

/// Where links to peers come from: peers that connect, and addresses that are dialed.
pub trait Door {
    /// Its links.
    type Link: Link;

    /// The links still to come, as `next` will give them, where the door knows them: one in memory does. No other call changes them.
    ghost links: { Self → Option (List Self.Link) };

    /// Where it came from: its depth, 0 where it is no share and else one more than its maker's, and where it listened as it was made,
    /// which is where its maker listened then. No call changes it.
    ghost origin: { Self → DoorOrigin };

    /// Its calls, with how each went, in order. A share begins with none. Every door tells them.
    ghost calls: { Self → List DoorCall };

    /// Listens at an address, for peers to connect. A link that is given from then on, also by a share that is made from then on, has
    /// failed where its peer is admitted and lets it wait for so many seconds. `Failed` comes only where the door failed in this call.
    fn listen<R: Net<Listener = TcpListener, Stream = TcpStream> + Clock + Files>(
        &mut self,
        rt: &R,
        address: &[u8],
        patience: u64,
    ) -> Reach
        ensures calls { calls self.new ≡ calls self.old ++ listen_call address.now patience result ∷ [] }
        ensures links { links self.new ≡ links self.old }
        ensures origin { origin self.new ≡ origin self.old };

    /// A door that listens where this one does, and of which nothing was asked yet.
    ///
    /// `Failed` comes only where this door failed in this call. `NoMemory` says that there was no memory for the share.
    fn share(&mut self) -> Shared<Self>
    where
        Self: Sized,
        ensures fresh { IfMade result (λ share. calls share ≡ []) }
        ensures shared { IfMade result (λ share. origin share ≡ share_of (origin self.old) (calls self.old)) }
        ensures calls { calls self.new ≡ calls self.old ++ share_call result ∷ [] }
        ensures links { links self.new ≡ links self.old }
        ensures origin { origin self.new ≡ origin self.old };

    /// The next link that a peer has opened.
    ///
    /// `Link` gives the first one to come; its place is the number of links that were given, with it. `NoMore` comes only
    /// where none is to come. `Failed` comes only where the door failed in this call, and gave none.
    fn next<R: Net<Listener = TcpListener, Stream = TcpStream> + Clock>(
        &mut self,
        rt: &R,
    ) -> Next<Self::Link>
        ensures fresh { IfGiven result
            (λ link. IsFreshLink (Self.Link.taken link) (Self.Link.sent link) (Self.Link.over link)
            (Self.Link.closed link) (Self.Link.admitted link) (Self.Link.faults link)) }
        ensures place { IfGiven result (λ link. Self.Link.place link ≡ gave_in (calls self.new)) }
        ensures toward { IfGiven result (λ link. Self.Link.toward link ≡ None) }
        ensures links { Gives result (links self.old) (links self.new) }
        ensures calls { calls self.new ≡ calls self.old ++ next_call result ∷ [] }
        ensures origin { origin self.new ≡ origin self.old };

    /// A link to the peer at an address. `Failed` comes only where the door failed in this call.
    fn dial<R: Net<Listener = TcpListener, Stream = TcpStream> + Clock>(
        &mut self,
        rt: &R,
        address: &[u8],
    ) -> Dial<Self::Link>
        ensures fresh { IfDialed result
            (λ link. IsFreshLink (Self.Link.taken link) (Self.Link.sent link) (Self.Link.over link)
            (Self.Link.closed link) (Self.Link.admitted link) (Self.Link.faults link)) }
        ensures place { IfDialed result (λ link. Self.Link.place link ≡ 0) }
        ensures toward { IfDialed result (λ link. Self.Link.toward link ≡ Some address.now) }
        ensures calls { calls self.new ≡ calls self.old ++ dial_call address.now result ∷ [] }
        ensures links { links self.new ≡ links self.old }
        ensures origin { origin self.new ≡ origin self.old };
}

/// A moment of a session at which a [`Gate`] is told where it stands.
#[derive(Clone, Copy, Debug, PartialEq, Eq)]
pub enum Place {
    /// No verdict was kept that answers a call.
    Missed {
        session: u64,
        principal: u32,
    },
    /// An authority is asked next.
    Asking {
        session: u64,
        principal: u32,
    },
    /// A request was answered. The principal is that of the session, once it has one.
    Answered {
        session: u64,
        principal: Option<u32>,
    },
}

/// What is told where sessions stand, and may hold them there: tests order the steps of sessions with it.
pub trait Gate {
    /// A session is at this place. It goes on when the call returns.
    fn at<R: Net<Listener = TcpListener, Stream = TcpStream> + Clock>(&self, rt: &R, place: Place);
}

/// A gate that holds nobody.
#[derive(Clone, Copy, Debug)]
pub struct OpenGate;

impl Gate for OpenGate {
    /// Returns at once.
    fn at<R: Net<Listener = TcpListener, Stream = TcpStream> + Clock>(
        &self,
        _rt: &R,
        _place: Place,
    ) {}
}
