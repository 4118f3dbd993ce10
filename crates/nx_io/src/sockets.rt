// Links and doors over sockets of the system.
ghost use Rattle.std.specs.Prelude.{◌≡◌, ◌≢◌, ◌∷◌, ◌++◌, [], IfOk, None, Some};
ghost use Rattle.std.specs.Option.{option_map};
ghost use Rattle.nx_io.specs.Histories.{bytes_of};
ghost use Rattle.nx_io.specs.DoorCalls.{faults_in, gave_in, new_origin, next_call};
ghost use Rattle.nx_io.specs.Doors.{Gives, IfGiven};
ghost use Rattle.nx_io.specs.Links.{IsFreshLink};
ghost use Rattle.nx_io.specs.Duplexes.{new_stream};

use crate::door_history::{DoorHistory, LoggedCall};
use crate::doors::{Dial, Door, Next};
use crate::history::History;
use crate::links::Link;
use crate::queues::Queues;
use crate::stream_links::StreamLink;
use crate::streams::{Got, Put, Reach, Shared};
use crate::system_streams::{SystemListener, SystemStream};
use crate::timed_streams::TimedStream;
use std::alloc::Global;
use std::fs::Files;
use std::io::{self, ErrorKind};
use std::marker::Model;
use std::net::{Net, TcpListener, TcpStream};
use std::rt::Clock;

/// A link over a connection of the system: each call is that of the link over its stream. A peer that lets it wait for too long is a
/// fault: `docs/ARCHITECTURE.md`, "Peers that are silent", says for how long.
#[derive(Drop)]
pub struct SocketLink<C: Clock + Copy> {
    link: StreamLink<TimedStream<C>>,
}

impl<C: Clock + Copy> Model for SocketLink<C> {
    ghost use Rattle.nx_io.specs.Duplexes.{Stream};
    ghost use Rattle.nx_io.specs.Sockets.{Socket};

    ghost Value = { Socket Stream };

    ghost view = { λ t. t.link };
}

impl<C: Clock + Copy> SocketLink<C> {
    // A link over a stream, with empty queues.
    fn over(
        stream: TimedStream<C>,
        queues: Queues,
        place: u64,
        toward: Option<History>,
    ) -> SocketLink<C>
        requires stream { stream ≡ new_stream None None }
        requires ahead { queues.ahead.waiting ≡ [] }
        requires behind { queues.behind.waiting ≡ [] }
        ensures fresh { IsFreshLink result.taken result.sent result.over result.stream.shut
            result.stream.admitted result.faults }
        ensures origin { (result.place ≡ place) × (result.toward ≡ option_map bytes_of toward) }
    {
        SocketLink {
            link: StreamLink::over(stream, queues, place, toward),
        }
    }

    /// Whether the link was closed.
    pub fn is_closed(&self) -> bool
        ensures { result ≡ self.now.stream.shut }
    {
        self.link.is_closed()
    }

    /// How often the link has failed.
    pub fn faults(&self) -> u64
        ensures { result ≡ self.now.faults }
    {
        self.link.faults()
    }
}

impl<C: Clock + Copy> Link for SocketLink<C> {
    ghost left = { λ _. None };

    ghost taken = { λ t. t.taken };

    ghost sent = { λ t. t.sent };

    ghost over = { λ t. t.over };

    ghost closed = { λ t. t.stream.shut };

    ghost admitted = { λ t. t.stream.admitted };

    ghost place = { λ t. t.place };

    ghost toward = { λ t. t.toward };

    ghost faults = { λ t. t.faults };

    fn take(&mut self, into: &mut [u8]) -> Got {
        self.link.take(into)
    }

    fn send(&mut self, piece: &[u8]) -> Put {
        self.link.send(piece)
    }

    fn admit(&mut self) {
        self.link.admit();
    }

    fn close(&mut self) {
        self.link.close();
    }
}

/// Where connections of the system come from: over TCP, and where an address begins with `unix:`, over local sockets. It accepts at the
/// address at which it listened last. Its links read the time from a clock of their own, and their queues are taken from this memory: a
/// connection for which there is none is closed, and the door has failed.
#[derive(Drop)]
pub struct SocketDoor<C: Clock + Copy> {
    listener: Option<SystemListener>,
    patience: u64,
    alloc: Global,
    clock: C,
    history: DoorHistory,
}

impl<C: Clock + Copy> Model for SocketDoor<C> {
    ghost use Rattle.nx_io.specs.DoorCalls.{DoorCalls};

    ghost Value = { DoorCalls };

    ghost view = { λ d. d.history };
}

impl<C: Clock + Copy> SocketDoor<C> {
    /// A door that doesn't listen yet.
    pub fn new(alloc: Global, clock: C) -> SocketDoor<C>
        ensures { result ≡ record { origin = new_origin; calls = [] } }
    {
        SocketDoor {
            listener: None,
            patience: 0,
            alloc,
            clock,
            history: DoorHistory::new(),
        }
    }

    /// How often the door has failed.
    pub fn faults(&self) -> u64
        ensures { result ≡ faults_in self.now.calls }
    {
        self.history.faults()
    }
}

impl<C: Clock + Copy> Door for SocketDoor<C> {
    type Link = SocketLink<C>;

    ghost links = { λ _. None };

    ghost origin = { λ d. d.origin };

    ghost calls = { λ d. d.calls };

    /// As of any door.
    fn listen<R: Net<Listener = TcpListener, Stream = TcpStream> + Clock + Files>(
        &mut self,
        rt: &R,
        address: &[u8],
        patience: u64,
    ) -> Reach {
        let told = History::of(address);
        match SystemListener::bind(rt, address) {
            Ok(listener) => {
                self.listener = Some(listener);
                self.patience = patience;
                self.history.add(LoggedCall::Listened {
                    address: told,
                    patience,
                });
                Reach::Ready
            }
            Err(_) => {
                self.history.add(LoggedCall::NotListened {
                    address: told,
                    patience,
                });
                Reach::Failed
            }
        }
    }

    /// As of any door. The share accepts from the same listener. It takes no memory.
    fn share(&mut self) -> Shared<SocketDoor<C>> {
        match shared(&self.listener) {
            Ok(listener) => {
                let history = self.history.of_share();
                self.history.add(LoggedCall::Shared);
                Shared::Made(SocketDoor {
                    listener,
                    patience: self.patience,
                    alloc: self.alloc,
                    clock: self.clock,
                    history,
                })
            }
            Err(_) => {
                self.history.add(LoggedCall::NotShared);
                Shared::Failed
            }
        }
    }

    /// As of any door. It waits for a peer, and fails where it doesn't listen. What fails for one connection alone is no
    /// fault. It never answers that no link is to come.
    fn next<R: Net<Listener = TcpListener, Stream = TcpStream> + Clock>(
        &mut self,
        _rt: &R,
    ) -> Next<SocketLink<C>>
        ensures fresh { IfGiven result
            (λ link. IsFreshLink link.taken link.sent link.over link.stream.shut link.stream.admitted link.faults) }
        ensures place { IfGiven result (λ link. link.place ≡ gave_in self.new.calls) }
        ensures toward { IfGiven result (λ link. link.toward ≡ None) }
        ensures links { Gives {L = SocketLink C} result None None }
        ensures calls { self.new.calls ≡ self.old.calls ++ next_call result ∷ [] }
        ensures origin { self.new.origin ≡ self.old.origin }
        ensures endless { result ≢ Next.NoMore }
    {
        match with_queues(self.alloc, accepted(&self.listener)) {
            Ok((stream, queues)) => {
                self.history.add(LoggedCall::Gave);
                let stream = TimedStream::patient(self.clock, stream, self.patience);
                let place = self.history.gave();
                Next::Link(SocketLink::over(stream, queues, place, None))
            }
            Err(_) => {
                self.history.add(LoggedCall::NotGiven);
                Next::Failed
            }
        }
    }

    /// As of any door. The link waits as long as it takes.
    fn dial<R: Net<Listener = TcpListener, Stream = TcpStream> + Clock>(
        &mut self,
        rt: &R,
        address: &[u8],
    ) -> Dial<SocketLink<C>> {
        let told = History::of(address);
        match with_queues(self.alloc, SystemStream::connect(rt, address)) {
            Ok((stream, queues)) => {
                self.history.add(LoggedCall::Dialed { address: told });
                let stream = TimedStream::endless(self.clock, stream);
                let toward = Some(History::of(address));
                Dial::Link(SocketLink::over(stream, queues, 0, toward))
            }
            Err(_) => {
                self.history.add(LoggedCall::NotDialed { address: told });
                Dial::Failed
            }
        }
    }
}

/// The same listener once more, where there is one.
fn shared(listener: &Option<SystemListener>) -> io::Result<Option<SystemListener>> {
    match listener {
        Some(listener) => Ok(Some(listener.try_clone()?)),
        None => Ok(None),
    }
}

/// The next connection of a listener, where there is one.
fn accepted(listener: &Option<SystemListener>) -> io::Result<SystemStream> {
    match listener {
        Some(listener) => listener.accept(),
        None => Err(io::Error::from(ErrorKind::NotConnected)),
    }
}

/// A connection, if there is one, with queues for it. Small pieces go out at once where the system allows that.
fn with_queues(
    alloc: Global,
    connected: io::Result<SystemStream>,
) -> io::Result<(SystemStream, Queues)>
    ensures ahead { IfOk result (λ r. r.1.ahead.waiting ≡ []) }
    ensures behind { IfOk result (λ r. r.1.behind.waiting ≡ []) }
{
    let stream = connected?;
    let queues = Queues::new(alloc)?;
    stream.set_prompt();
    Ok((stream, queues))
}
