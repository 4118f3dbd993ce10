// A link in memory, which fails at the calls that it is told.
ghost use Rattle.std.specs.Prelude.{◌<◌, ◌≡◌, ◌≤◌, IfOk, Some, None, false, length, true};
ghost use Rattle.std.specs.Option.{option_map};
ghost use Rattle.nx_io.specs.Streams.{MayRise, Reads, ReadsWithin, Writes, WritesWithin, faults_after_read, faults_after_write, given_after, over_after};
ghost use Rattle.nx_io.specs.Links.{KeepsComing, KeepsGoing, KeepsOrigin};
ghost use Rattle.nx_io.specs.Memory.{Stores, Supplies};
ghost use Rattle.nx_io.specs.MemoryLinks.{new_wire};

use crate::history::History;
use crate::links::Link;
use crate::memory::{MemSink, MemSource};
use crate::streams::{Got, Put, Sink, Source};
use std::alloc::{AllocError, Global};
use std::marker::Model;

/// A link over bytes in memory, which keeps what it is sent.
#[derive(Drop)]
pub struct MemLink {
    source: MemSource,
    sink: MemSink,
    closed: bool,
    admitted: bool,
    place: u64,
    toward: Option<History>,
    faults: u64,
}

impl Model for MemLink {
    ghost use Rattle.std.specs.Option.{option_map};
    ghost use Rattle.nx_io.specs.Histories.{bytes_of};
    ghost use Rattle.nx_io.specs.MemoryLinks.{Wire};

    ghost Value = { Wire };

    ghost view = { λ l. record {
      supply = l.source;
      store = l.sink;
      closed = l.closed;
      admitted = l.admitted;
      place = l.place;
      toward = option_map bytes_of l.toward;
      faults = l.faults;
    } };
}

impl MemLink {
    /// A link that will give these bytes and holds at most `room` bytes of what it is sent, in pieces of at most `piece` each
    /// way. The takes whose numbers `take_fails` lists fail, and the sends whose numbers `send_fails` lists, the first of each
    /// being 1; so does a send where no room is left. An `Err` is want of memory: all that the link will need is taken here.
    pub fn new(
        alloc: Global,
        left: &[u8],
        room: usize,
        piece: usize,
        take_fails: &[u64],
        send_fails: &[u64],
    ) -> Result<MemLink, AllocError>
        requires { 1 ≤ piece }
        ensures { IfOk result (λ link. link ≡ new_wire left.now room piece take_fails.now send_fails.now) }
    {
        Ok(MemLink {
            source: MemSource::new(alloc, left, piece, take_fails)?,
            sink: MemSink::new(alloc, room, piece, send_fails, &[])?,
            closed: false,
            admitted: false,
            place: 0,
            toward: None,
            faults: 0,
        })
    }

    /// The bytes still to come.
    pub fn left(&self) -> &[u8]
        ensures { result.now ≡ self.now.supply.left }
    {
        self.source.left()
    }

    /// The bytes that were sent.
    pub fn sent(&self) -> &[u8]
        ensures { result.now ≡ self.now.store.sent }
    {
        self.sink.sent()
    }

    /// Whether the link was closed.
    pub fn is_closed(&self) -> bool
        ensures { result ≡ self.now.closed }
    {
        self.closed
    }

    /// Whether the link was told that its peer is admitted.
    pub fn is_admitted(&self) -> bool
        ensures { result ≡ self.now.admitted }
    {
        self.admitted
    }

    /// The number of the link among those that its door gave by `next`, from 1, and else 0.
    pub fn place(&self) -> u64
        ensures { result ≡ self.now.place }
    {
        self.place
    }

    /// How often the link has failed.
    pub fn faults(&self) -> u64
        ensures { result ≡ self.now.faults }
    {
        self.faults
    }

    // The link as a door gives it by `next`, under this number.
    pub(crate) fn given_as(self, place: u64) -> MemLink
        ensures { result ≡ record self { place = place; toward = None } }
    {
        MemLink {
            place,
            toward: None,
            ..self
        }
    }

    // The link as a door gives it by `dial`, at this address.
    pub(crate) fn dialed_at(self, address: &[u8]) -> MemLink
        ensures { result ≡ record self { place = 0; toward = Some address.now } }
    {
        let mut toward = History::Start;
        toward.tell(address);
        MemLink {
            place: 0,
            toward: Some(toward),
            ..self
        }
    }
}

impl Link for MemLink {
    ghost left = { λ l. Some l.supply.left };

    ghost taken = { λ l. l.supply.given };

    ghost sent = { λ l. l.store.sent };

    ghost over = { λ l. l.supply.over };

    ghost closed = { λ l. l.closed };

    ghost admitted = { λ l. l.admitted };

    ghost place = { λ l. l.place };

    ghost toward = { λ l. l.toward };

    ghost faults = { λ l. l.faults };

    /// As of any link. A take fails where its number is listed, and nowhere else.
    fn take(&mut self, into: &mut [u8]) -> Got
        requires room { 0 < length into.old }
        requires open { self.old.closed ≡ false }
        ensures within { ReadsWithin result into.new }
        ensures bytes { Reads result (Some self.old.supply.left) (Some self.new.supply.left) into.new }
        ensures taken { self.new.supply.given ≡ given_after result self.old.supply.given into.new }
        ensures over { self.new.supply.over ≡ over_after result self.old.supply.over }
        ensures going { KeepsGoing self.old.store.sent self.new.store.sent self.old.closed self.new.closed }
        ensures origin { KeepsOrigin self.old.place self.new.place self.old.toward self.new.toward }
        ensures admitted { self.new.admitted ≡ self.old.admitted }
        ensures later { self.old.faults ≤ self.new.faults }
        ensures count { self.new.faults ≡ faults_after_read result self.old.faults }
        ensures exact { Supplies result self.old.supply self.new.supply into.new }
        ensures others { self.new ≡ record self.old { supply = self.new.supply; faults = self.new.faults } }
    {
        let got = self.source.read(into);
        if got == Got::Failed {
            self.faults = self.faults.saturating_add(1);
        }
        got
    }

    /// As of any link. A send fails where its number is listed or no room is left, and nowhere else.
    fn send(&mut self, piece: &[u8]) -> Put
        requires some { 0 < length piece.now }
        requires open { self.old.closed ≡ false }
        ensures within { WritesWithin result piece.now }
        ensures bytes { Writes result self.old.store.sent self.new.store.sent piece.now }
        ensures closed { self.new.closed ≡ self.old.closed }
        ensures coming { KeepsComing (Some self.old.supply.left) (Some self.new.supply.left) self.old.supply.given
            self.new.supply.given self.old.supply.over self.new.supply.over }
        ensures origin { KeepsOrigin self.old.place self.new.place self.old.toward self.new.toward }
        ensures admitted { self.new.admitted ≡ self.old.admitted }
        ensures later { self.old.faults ≤ self.new.faults }
        ensures count { self.new.faults ≡ faults_after_write result self.old.faults }
        ensures exact { Stores result self.old.store self.new.store piece.now }
        ensures others { self.new ≡ record self.old { store = self.new.store; faults = self.new.faults } }
    {
        let put = self.sink.write(piece);
        if put == Put::Failed {
            self.faults = self.faults.saturating_add(1);
        }
        put
    }

    /// As of any link.
    fn admit(&mut self)
        ensures { self.new ≡ record self.old { admitted = true } }
    {
        self.admitted = true;
    }

    /// As of any link. Nothing waits in it, so it doesn't fail here.
    fn close(&mut self)
        ensures closed { self.new.closed ≡ true }
        ensures sent { self.new.store.sent ≡ self.old.store.sent }
        ensures coming { KeepsComing (Some self.old.supply.left) (Some self.new.supply.left) self.old.supply.given
            self.new.supply.given self.old.supply.over self.new.supply.over }
        ensures origin { KeepsOrigin self.old.place self.new.place self.old.toward self.new.toward }
        ensures admitted { self.new.admitted ≡ self.old.admitted }
        ensures later { self.old.faults ≤ self.new.faults }
        ensures count { MayRise self.old.faults self.new.faults }
        ensures others { self.new ≡ record self.old { closed = true } }
    {
        self.closed = true;
    }
}
