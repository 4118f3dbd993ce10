// Streams both ways, by the histories of what they gave and took, and by a count of their faults.
// `docs/ARCHITECTURE.md`, "What contracts see of the outside", states the form that all such traits have.
ghost use Rattle.std.specs.Prelude.{◌<◌, ◌≡◌, [], Bool, List, false, length, true, ℕ};
ghost use Rattle.nx_io.specs.Duplexes.{AreSame, new_stream};
ghost use Rattle.nx_io.specs.Readers.{HandsOn, HandsTo};
ghost use Rattle.nx_io.specs.Streams.{ReadsWithin, Writes, WritesWithin, faults_after_read, faults_after_write, given_after, one_more};

use crate::history::History;
use crate::standard::{read_uninterrupted, write_uninterrupted};
use crate::streams::{Got, Put};
use std::io::{Read, Write};
use std::marker::Model;

/// A stream both ways, one call of the system at a time: a link keeps one.
pub trait Duplex {
    /// The bytes that its reads have given, in order.
    ghost given: { Self → List ℕ };

    /// The bytes that its writes have taken, in order.
    ghost sent: { Self → List ℕ };

    /// Whether it was shut.
    ghost shut: { Self → Bool };

    /// Whether it was told that its peer is admitted. `admit` alone sets it.
    ghost admitted: { Self → Bool };

    /// How often it has failed. The count stands still at its type's end.
    ghost faults: { Self → ℕ };

    /// Reads some bytes into the front of the buffer, which has room for one at least. `End` says that none is to come. The count
    /// of faults rises by one at `Failed` and at no other answer.
    fn read(&mut self, into: &mut [u8]) -> Got
        requires room { 0 < length into.old }
        requires open { shut self.old ≡ false }
        ensures within { ReadsWithin result into.new }
        ensures given { given self.new ≡ given_after result (given self.old) into.new }
        ensures others { AreSame (sent self.old) (sent self.new) (shut self.old) (shut self.new) (admitted self.old)
            (admitted self.new) }
        ensures count { faults self.new ≡ faults_after_read result (faults self.old) };

    /// Writes some bytes of the front of a piece, which has one at least. The count of faults rises by one at `Failed` and at no
    /// other answer.
    fn write(&mut self, piece: &[u8]) -> Put
        requires some { 0 < length piece.now }
        requires open { shut self.old ≡ false }
        ensures within { WritesWithin result piece.now }
        ensures bytes { Writes result (sent self.old) (sent self.new) piece.now }
        ensures others { AreSame (given self.old) (given self.new) (shut self.old) (shut self.new) (admitted self.old)
            (admitted self.new) }
        ensures count { faults self.new ≡ faults_after_write result (faults self.old) };

    /// Tells the stream that its peer is admitted.
    fn admit(&mut self)
        ensures admitted { admitted self.new ≡ true }
        ensures given { given self.new ≡ given self.old }
        ensures sent { sent self.new ≡ sent self.old }
        ensures shut { shut self.new ≡ shut self.old }
        ensures count { faults self.new ≡ faults self.old };

    /// Shuts the stream, once for all. What it gave and took is told on.
    fn shut(&mut self)
        ensures shut { shut self.new ≡ true }
        ensures given { given self.new ≡ given self.old }
        ensures sent { sent self.new ≡ sent self.old }
        ensures admitted { admitted self.new ≡ admitted self.old }
        ensures count { faults self.new ≡ faults self.old };

    /// Whether it was shut.
    fn is_shut(&self) -> bool
        ensures { result ≡ shut self.now };
}

/// A stream of std, which counts the calls that fail. A read hands on those bytes that std knows the stream to have, and a write
/// hands its piece to those that std knows it to hold. The stream is let go where it is shut.
#[derive(Drop)]
pub struct StdDuplex<S: Read + Write> {
    stream: Option<S>,
    given: History,
    sent: History,
    admitted: bool,
    faults: u64,
}

impl<S: Read + Write> Model for StdDuplex<S> {
    ghost use Rattle.std.specs.Prelude.{is_none};
    ghost use Rattle.nx_io.specs.Duplexes.{Stream, known_of};
    ghost use Rattle.nx_io.specs.Histories.{bytes_of};

    ghost Value = { Stream };

    ghost view = { λ d. record {
      remaining = known_of S.remaining d.stream;
      contents = known_of S.contents d.stream;
      given = bytes_of d.given;
      sent = bytes_of d.sent;
      shut = is_none d.stream;
      admitted = d.admitted;
      faults = d.faults;
    } };
}

impl<S: Read + Write> StdDuplex<S> {
    /// A stream that was neither read nor written yet.
    pub fn new(stream: S) -> StdDuplex<S>
        ensures { result ≡ new_stream (S.remaining stream) (S.contents stream) }
    {
        StdDuplex {
            stream: Some(stream),
            given: History::Start,
            sent: History::Start,
            admitted: false,
            faults: 0,
        }
    }

    /// The stream itself, until it is shut.
    pub(crate) fn stream(&self) -> Option<&S> {
        self.stream.as_ref()
    }

    /// Counts a fault.
    pub(crate) fn fail(&mut self)
        ensures { self.new ≡ record self.old { faults = one_more self.old.faults } }
    {
        self.faults = self.faults.saturating_add(1);
    }
}

impl<S: Read + Write + Drop> Duplex for StdDuplex<S> {
    ghost given = { λ d. d.given };

    ghost sent = { λ d. d.sent };

    ghost shut = { λ d. d.shut };

    ghost admitted = { λ d. d.admitted };

    ghost faults = { λ d. d.faults };

    /// As of any stream. A read that a signal interrupted is tried again, and is no fault.
    fn read(&mut self, into: &mut [u8]) -> Got
        requires room { 0 < length into.old }
        requires open { self.old.shut ≡ false }
        ensures within { ReadsWithin result into.new }
        ensures given { self.new.given ≡ given_after result self.old.given into.new }
        ensures others { AreSame self.old.sent self.new.sent self.old.shut self.new.shut self.old.admitted
            self.new.admitted }
        ensures count { self.new.faults ≡ faults_after_read result self.old.faults }
        ensures handed { HandsOn result self.old.remaining self.new.remaining into.new }
    {
        let Some(stream) = &mut self.stream else {
            unreachable!();
        };
        match read_uninterrupted(stream, into) {
            Ok(0) => Got::End,
            Ok(count) => {
                self.given.tell(&into[..count]);
                Got::Bytes(count)
            }
            Err(_) => {
                self.faults = self.faults.saturating_add(1);
                Got::Failed
            }
        }
    }

    /// As of any stream. A write that a signal interrupted is tried again, and is no fault; a stream that takes nothing has failed.
    fn write(&mut self, piece: &[u8]) -> Put
        requires some { 0 < length piece.now }
        requires open { self.old.shut ≡ false }
        ensures within { WritesWithin result piece.now }
        ensures bytes { Writes result self.old.sent self.new.sent piece.now }
        ensures others { AreSame self.old.given self.new.given self.old.shut self.new.shut self.old.admitted
            self.new.admitted }
        ensures count { self.new.faults ≡ faults_after_write result self.old.faults }
        ensures handed { HandsTo result self.old.contents self.new.contents piece.now }
    {
        let Some(stream) = &mut self.stream else {
            unreachable!();
        };
        match write_uninterrupted(stream, piece) {
            Ok(count) if count > 0 => {
                self.sent.tell(&piece[..count]);
                Put::Bytes(count)
            }
            _ => {
                self.faults = self.faults.saturating_add(1);
                Put::Failed
            }
        }
    }

    /// As of any stream. It waits as before.
    fn admit(&mut self)
        ensures { self.new ≡ record self.old { admitted = true } }
    {
        self.admitted = true;
    }

    /// As of any stream.
    fn shut(&mut self)
        ensures shut { self.new.shut ≡ true }
        ensures given { self.new.given ≡ self.old.given }
        ensures sent { self.new.sent ≡ self.old.sent }
        ensures admitted { self.new.admitted ≡ self.old.admitted }
        ensures count { self.new.faults ≡ self.old.faults }
    {
        self.stream = None;
    }

    fn is_shut(&self) -> bool
        ensures { result ≡ self.now.shut }
    {
        self.stream.is_none()
    }
}
