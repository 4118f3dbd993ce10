// Links over streams.
ghost use Rattle.std.specs.Prelude.{◌<◌, ◌≡◌, ◌≢◌, ◌⊎◌, ◌≤◌, [], IfOk, None, false, length, true};
ghost use Rattle.std.specs.Option.{option_map};
ghost use Rattle.nx_io.specs.Histories.{bytes_of};
ghost use Rattle.nx_io.specs.Links.{KeepsComing, KeepsGoing, KeepsOrigin};
ghost use Rattle.nx_io.specs.Sockets.{InOrder, new_socket};
ghost use Rattle.nx_io.specs.Streams.{MayRise, Reads, ReadsWithin, Writes, WritesWithin, faults_after_read, faults_after_write, given_after, one_more, over_after};

use crate::buffered::Buffered;
use crate::duplex::Duplex;
use crate::history::History;
use crate::links::Link;
use crate::queues::Queues;
use crate::streams::{Got, Put, Reach};
use std::alloc::{AllocError, Global};
use std::marker::Model;

/// A link over any stream, which counts its faults. It reads ahead, and gathers what it is sent until it would wait for bytes
/// itself, has no more room or is closed. Bytes pass in order, and each once; a fault is counted where the stream has failed, and
/// nowhere else while the link is open. What the peer has left is not known.
#[derive(Drop)]
pub struct StreamLink<S: Duplex> {
    traffic: Buffered<S>,
    over: bool,
    place: u64,
    toward: Option<History>,
    faults: u64,
}

impl<S: Duplex> Model for StreamLink<S> {
    ghost use Rattle.std.specs.Option.{option_map};
    ghost use Rattle.nx_io.specs.Histories.{bytes_of};
    ghost use Rattle.nx_io.specs.Sockets.{Socket};

    ghost Value = { Socket S };

    ghost view = { λ l. record {
      stream = l.traffic.stream;
      taken = l.traffic.taken;
      sent = l.traffic.sent;
      over = l.over;
      place = l.place;
      toward = option_map bytes_of l.toward;
      faults = l.faults;
    } };
}

impl<S: Duplex> StreamLink<S> {
    // A link over an open stream, with empty queues, under the number by which a door gives it, or toward the address that was dialed.
    pub(crate) fn over(
        stream: S,
        queues: Queues,
        place: u64,
        toward: Option<History>,
    ) -> StreamLink<S>
        requires given { S.given stream ≡ [] }
        requires sent { S.sent stream ≡ [] }
        requires open { S.shut stream ≡ false }
        requires ahead { queues.ahead.waiting ≡ [] }
        requires behind { queues.behind.waiting ≡ [] }
        ensures { result ≡ new_socket stream place (option_map bytes_of toward) }
    {
        StreamLink {
            traffic: Buffered::new(stream, queues),
            over: false,
            place,
            toward,
            faults: 0,
        }
    }

    /// Whether the link was closed.
    pub fn is_closed(&self) -> bool
        ensures { result ≡ S.shut self.now.stream }
    {
        self.traffic.is_shut()
    }

    /// How often the link has failed.
    pub fn faults(&self) -> u64
        ensures { result ≡ self.now.faults }
    {
        self.faults
    }
}

impl<S: Duplex + Drop> StreamLink<S> {
    /// A link over an open stream that was neither read nor written yet, which no door gave and nobody dialed. An `Err` says that
    /// there was no memory for its queues.
    pub fn new(alloc: Global, stream: S) -> Result<StreamLink<S>, AllocError>
        requires given { S.given stream ≡ [] }
        requires sent { S.sent stream ≡ [] }
        requires open { S.shut stream ≡ false }
        ensures { IfOk result (λ link. link ≡ new_socket stream 0 None) }
    {
        let queues = Queues::new(alloc)?;
        Ok(StreamLink::over(stream, queues, 0, None))
    }
}

impl<S: Duplex> Link for StreamLink<S> {
    ghost left = { λ _. None };

    ghost taken = { λ l. l.taken };

    ghost sent = { λ l. l.sent };

    ghost over = { λ l. l.over };

    ghost closed = { λ l. S.shut l.stream };

    ghost admitted = { λ l. S.admitted l.stream };

    ghost place = { λ l. l.place };

    ghost toward = { λ l. l.toward };

    ghost faults = { λ l. l.faults };

    /// As of any link. Before it reads from the stream, all that was sent is written to it. At `End` all that the stream gave was
    /// taken. A closed link fails.
    fn take(&mut self, into: &mut [u8]) -> Got
        requires room { 0 < length into.old }
        ensures within { ReadsWithin result into.new }
        ensures bytes { Reads result None None into.new }
        ensures taken { self.new.taken ≡ given_after result self.old.taken into.new }
        ensures over { self.new.over ≡ over_after result self.old.over }
        ensures going { KeepsGoing self.old.sent self.new.sent (S.shut self.old.stream) (S.shut self.new.stream) }
        ensures origin { KeepsOrigin self.old.place self.new.place self.old.toward self.new.toward }
        ensures admitted { S.admitted self.new.stream ≡ S.admitted self.old.stream }
        ensures later { self.old.faults ≤ self.new.faults }
        ensures count { self.new.faults ≡ faults_after_read result self.old.faults }
        ensures order { InOrder (S.given self.new.stream) (S.sent self.new.stream) self.new.taken self.new.sent }
        ensures end { result ≡ Got.End → self.new.taken ≡ S.given self.new.stream }
        ensures first { (result ≡ Got.End ⊎ S.given self.new.stream ≢ S.given self.old.stream)
            → S.sent self.new.stream ≡ self.new.sent }
        ensures blame { S.shut self.old.stream ≡ false → S.faults self.new.stream ≡ faults_after_read result
            (S.faults self.old.stream) }
    {
        let got = self.traffic.take(into);
        match got {
            Got::Bytes(_) => self.over = false,
            Got::End => self.over = true,
            Got::Failed => self.faults = self.faults.saturating_add(1),
        }
        got
    }

    /// As of any link. It reads nothing. A closed link fails.
    fn send(&mut self, piece: &[u8]) -> Put
        requires some { 0 < length piece.now }
        ensures within { WritesWithin result piece.now }
        ensures bytes { Writes result self.old.sent self.new.sent piece.now }
        ensures closed { S.shut self.new.stream ≡ S.shut self.old.stream }
        ensures coming { KeepsComing None None self.old.taken self.new.taken self.old.over self.new.over }
        ensures origin { KeepsOrigin self.old.place self.new.place self.old.toward self.new.toward }
        ensures admitted { S.admitted self.new.stream ≡ S.admitted self.old.stream }
        ensures later { self.old.faults ≤ self.new.faults }
        ensures count { self.new.faults ≡ faults_after_write result self.old.faults }
        ensures order { InOrder (S.given self.new.stream) (S.sent self.new.stream) self.new.taken self.new.sent }
        ensures reads_nothing { S.given self.new.stream ≡ S.given self.old.stream }
        ensures blame { S.shut self.old.stream ≡ false → S.faults self.new.stream ≡ faults_after_write result
            (S.faults self.old.stream) }
    {
        let put = self.traffic.send(piece);
        match put {
            Put::Bytes(_) => {}
            Put::Failed => self.faults = self.faults.saturating_add(1),
        }
        put
    }

    /// As of any link. The stream is told it.
    fn admit(&mut self)
        ensures admitted { S.admitted self.new.stream ≡ true }
        ensures coming { KeepsComing None None self.old.taken self.new.taken self.old.over self.new.over }
        ensures going { KeepsGoing self.old.sent self.new.sent (S.shut self.old.stream) (S.shut self.new.stream) }
        ensures origin { KeepsOrigin self.old.place self.new.place self.old.toward self.new.toward }
        ensures count { self.new.faults ≡ self.old.faults }
        ensures stream { (S.given self.new.stream ≡ S.given self.old.stream)
            × (S.sent self.new.stream ≡ S.sent self.old.stream) }
        ensures blame { S.faults self.new.stream ≡ S.faults self.old.stream }
    {
        self.traffic.admit();
    }

    /// As of any link. All that was sent is written to the stream, or the stream has failed and the count rises; then the stream
    /// is shut. A closed link stays as it is.
    fn close(&mut self)
        ensures closed { S.shut self.new.stream ≡ true }
        ensures sent { self.new.sent ≡ self.old.sent }
        ensures coming { KeepsComing None None self.old.taken self.new.taken self.old.over self.new.over }
        ensures origin { KeepsOrigin self.old.place self.new.place self.old.toward self.new.toward }
        ensures admitted { S.admitted self.new.stream ≡ S.admitted self.old.stream }
        ensures later { self.old.faults ≤ self.new.faults }
        ensures count { MayRise self.old.faults self.new.faults }
        ensures order { InOrder (S.given self.new.stream) (S.sent self.new.stream) self.new.taken self.new.sent }
        ensures reads_nothing { S.given self.new.stream ≡ S.given self.old.stream }
        ensures written { S.shut self.old.stream ≡ false → ((S.sent self.new.stream ≡ self.new.sent)
            × (S.faults self.new.stream ≡ S.faults self.old.stream) × (self.new.faults ≡ self.old.faults))
            ⊎ ((S.faults self.new.stream ≡ one_more (S.faults self.old.stream))
            × (self.new.faults ≡ one_more self.old.faults)) }
        ensures again { S.shut self.old.stream ≡ true → (S.sent self.new.stream ≡ S.sent self.old.stream)
            × (S.faults self.new.stream ≡ S.faults self.old.stream) × (self.new.faults ≡ self.old.faults) }
    {
        match self.traffic.close() {
            Reach::Ready => {}
            Reach::Failed => self.faults = self.faults.saturating_add(1),
        }
    }
}
