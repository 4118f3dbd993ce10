// A stream both ways, which is read ahead and whose writes are gathered.
ghost use Rattle.std.specs.Prelude.{◌<◌, ◌≡◌, ◌≢◌, ◌⊎◌, ◌++◌, List, [], false, length, true, ℕ};
ghost use Rattle.nx_io.specs.Duplexes.{AreSame};
ghost use Rattle.nx_io.specs.Sockets.{InOrder};
ghost use Rattle.nx_io.specs.Streams.{ReadsWithin, Writes, WritesWithin, faults_after_reach, faults_after_read, faults_after_write, given_after};

use crate::duplex::Duplex;
use crate::history::History;
use crate::queues::{Queue, Queues};
use crate::streams::{Got, Put, Reach};
use std::marker::Model;

/// A stream, and until it is shut bytes that it gave and that were not yet taken, and bytes that were sent and not yet written to it.
/// Contracts see the stream, what was taken and what was sent.
#[derive(Drop)]
pub(crate) struct Buffered<S: Duplex> {
    stream: S,
    queues: Option<Queues>,
    taken: History,
    sent: History,
}

impl<S: Duplex> Model for Buffered<S> {
    ghost use Rattle.nx_io.specs.Histories.{bytes_of};
    ghost use Rattle.nx_io.specs.Inner.Feeding.{IsFed};
    ghost use Rattle.nx_io.specs.Sockets.{Traffic};

    ghost Value = { Traffic S };

    ghost view = { λ w. record { stream = w.stream; taken = bytes_of w.taken; sent = bytes_of w.sent } };

    ghost invariant = { λ w. IsFed (S.shut w.stream) (S.given w.stream) (S.sent w.stream) (bytes_of w.taken)
        (bytes_of w.sent) w.queues };
}

impl<S: Duplex> Buffered<S> {
    /// An open stream that was neither read nor written yet, with empty queues.
    pub(crate) fn new(stream: S, queues: Queues) -> Buffered<S>
        requires given { S.given stream ≡ [] }
        requires sent { S.sent stream ≡ [] }
        requires open { S.shut stream ≡ false }
        requires ahead { queues.ahead.waiting ≡ [] }
        requires behind { queues.behind.waiting ≡ [] }
        ensures { result ≡ record { stream = stream; taken = []; sent = [] } }
    {
        Buffered {
            stream,
            queues: Some(queues),
            taken: History::Start,
            sent: History::Start,
        }
    }

    /// Takes bytes that were read ahead, and where there is none, writes what waits and reads once. It is `Failed` where that
    /// fails, and where the stream is shut.
    pub(crate) fn take(&mut self, into: &mut [u8]) -> Got
        requires { 0 < length into.old }
        ensures within { ReadsWithin result into.new }
        ensures taken { self.new.taken ≡ given_after result self.old.taken into.new }
        ensures sent { self.new.sent ≡ self.old.sent }
        ensures shut { S.shut self.new.stream ≡ S.shut self.old.stream }
        ensures admitted { S.admitted self.new.stream ≡ S.admitted self.old.stream }
        ensures order { InOrder (S.given self.new.stream) (S.sent self.new.stream) self.new.taken self.new.sent }
        ensures end { result ≡ Got.End → self.new.taken ≡ S.given self.new.stream }
        ensures first { (result ≡ Got.End ⊎ S.given self.new.stream ≢ S.given self.old.stream)
            → S.sent self.new.stream ≡ self.new.sent }
        ensures blame { S.shut self.old.stream ≡ false → S.faults self.new.stream ≡ faults_after_read result
            (S.faults self.old.stream) }
    {
        let Some(queues) = &mut self.queues else {
            return Got::Failed;
        };
        match fetch(&mut self.stream, queues) {
            Got::Bytes(_) => {
                let count = queues.both.ahead.pop_into(into);
                self.taken.tell(&into[..count]);
                Got::Bytes(count)
            }
            Got::End => Got::End,
            Got::Failed => Got::Failed,
        }
    }

    /// Gathers bytes, and writes those that wait first where there is no room. It is `Failed` where that fails, and where the
    /// stream is shut.
    pub(crate) fn send(&mut self, piece: &[u8]) -> Put
        requires { 0 < length piece.now }
        ensures within { WritesWithin result piece.now }
        ensures sent { Writes result self.old.sent self.new.sent piece.now }
        ensures taken { self.new.taken ≡ self.old.taken }
        ensures others { AreSame (S.given self.old.stream) (S.given self.new.stream) (S.shut self.old.stream)
            (S.shut self.new.stream) (S.admitted self.old.stream) (S.admitted self.new.stream) }
        ensures order { InOrder (S.given self.new.stream) (S.sent self.new.stream) self.new.taken self.new.sent }
        ensures blame { S.shut self.old.stream ≡ false → S.faults self.new.stream ≡ faults_after_write result
            (S.faults self.old.stream) }
    {
        let Some(queues) = &mut self.queues else {
            return Put::Failed;
        };
        match make_room(&mut self.stream, &mut queues.both.behind) {
            Reach::Ready => {
                let count = queues.both.behind.push(piece);
                self.sent.tell(&piece[..count]);
                Put::Bytes(count)
            }
            Reach::Failed => Put::Failed,
        }
    }

    /// Whether the stream was shut.
    pub(crate) fn is_shut(&self) -> bool
        ensures { result ≡ S.shut self.now.stream }
    {
        self.stream.is_shut()
    }

    /// Tells the stream that its peer is admitted.
    pub(crate) fn admit(&mut self)
        ensures admitted { S.admitted self.new.stream ≡ true }
        ensures same { (self.new.taken ≡ self.old.taken) × (self.new.sent ≡ self.old.sent) }
        ensures stream { (S.given self.new.stream ≡ S.given self.old.stream)
            × (S.sent self.new.stream ≡ S.sent self.old.stream) }
        ensures shut { S.shut self.new.stream ≡ S.shut self.old.stream }
        ensures faults { S.faults self.new.stream ≡ S.faults self.old.stream }
    {
        self.stream.admit();
    }

    /// Writes what waits, shuts the stream, and gives the memory of the queues back. It is `Failed` where that could not be written.
    pub(crate) fn close(&mut self) -> Reach
        ensures shut { S.shut self.new.stream ≡ true }
        ensures same { (self.new.taken ≡ self.old.taken) × (self.new.sent ≡ self.old.sent)
            × (S.given self.new.stream ≡ S.given self.old.stream) }
        ensures admitted { S.admitted self.new.stream ≡ S.admitted self.old.stream }
        ensures order { InOrder (S.given self.new.stream) (S.sent self.new.stream) self.new.taken self.new.sent }
        ensures ready { result ≡ Reach.Ready → S.shut self.old.stream ≡ false → S.sent self.new.stream ≡ self.new.sent }
        ensures blame { S.faults self.new.stream ≡ faults_after_reach result (S.faults self.old.stream) }
        ensures again { S.shut self.old.stream ≡ true → (result ≡ Reach.Ready)
            × (S.sent self.new.stream ≡ S.sent self.old.stream) }
    {
        let Some(queues) = &mut self.queues else {
            return Reach::Ready;
        };
        let reach = write_out(&mut self.stream, &mut queues.both.behind);
        self.stream.shut();
        self.queues = None;
        reach
    }
}

/// Makes bytes wait ahead: where there is none, writes what waits behind and reads once.
fn fetch<S: Duplex>(stream: &mut S, queues: &mut Queues) -> Got
    requires { S.shut stream.old ≡ false }
    ensures waits { (count : ℕ) → result ≡ Got.Bytes count → queues.new.ahead.waiting ≢ [] }
    ensures read { (taken : List ℕ) → S.given stream.old ≡ taken ++ queues.old.ahead.waiting
        → S.given stream.new ≡ taken ++ queues.new.ahead.waiting }
    ensures written { S.sent stream.new ++ queues.new.behind.waiting
        ≡ S.sent stream.old ++ queues.old.behind.waiting }
    ensures end { result ≡ Got.End → queues.new.ahead.waiting ≡ [] }
    ensures first { (result ≡ Got.End ⊎ S.given stream.new ≢ S.given stream.old) → queues.new.behind.waiting ≡ [] }
    ensures open { S.shut stream.new ≡ false }
    ensures admitted { S.admitted stream.new ≡ S.admitted stream.old }
    ensures blame { S.faults stream.new ≡ faults_after_read result (S.faults stream.old) }
{
    if !queues.both.ahead.is_empty() {
        return Got::Bytes(queues.both.ahead.waiting().len());
    }
    match write_out(stream, &mut queues.both.behind) {
        Reach::Ready => queues.both.ahead.fill(stream),
        Reach::Failed => Got::Failed,
    }
}

/// Makes room for a byte behind: where there is none, writes what waits there.
fn make_room<S: Duplex>(stream: &mut S, behind: &mut Queue) -> Reach
    requires { S.shut stream.old ≡ false }
    ensures written { S.sent stream.new ++ behind.new.waiting ≡ S.sent stream.old ++ behind.old.waiting }
    ensures ready { result ≡ Reach.Ready → 0 < behind.new.room }
    ensures others { AreSame (S.given stream.old) (S.given stream.new) (S.shut stream.old) (S.shut stream.new)
        (S.admitted stream.old) (S.admitted stream.new) }
    ensures blame { S.faults stream.new ≡ faults_after_reach result (S.faults stream.old) }
{
    if behind.room() > 0 {
        return Reach::Ready;
    }
    write_out(stream, behind)
}

/// Writes what waits behind, in as many writes as it takes. After a failure the rest waits on.
fn write_out<S: Duplex>(stream: &mut S, behind: &mut Queue) -> Reach
    requires { S.shut stream.old ≡ false }
    ensures written { S.sent stream.new ++ behind.new.waiting ≡ S.sent stream.old ++ behind.old.waiting }
    ensures ready { result ≡ Reach.Ready → behind.new ≡ record { waiting = []; room = 4096 } }
    ensures others { AreSame (S.given stream.old) (S.given stream.new) (S.shut stream.old) (S.shut stream.new)
        (S.admitted stream.old) (S.admitted stream.new) }
    ensures blame { S.faults stream.new ≡ faults_after_reach result (S.faults stream.old) }
{
    while !behind.is_empty() {
        match stream.write(behind.waiting()) {
            Put::Bytes(count) => behind.skip(count),
            Put::Failed => return Reach::Failed,
        }
    }
    behind.reset();
    Reach::Ready
}
