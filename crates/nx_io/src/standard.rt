// A source over any reader of std, and a sink over any writer.
ghost use Rattle.std.specs.Prelude.{◌<◌, ◌≡◌, ◌≢◌, ◌≤◌, [], IfErr, IfOk, None, OnErr, false, length, take};
ghost use Rattle.std.specs.Io.{ReadsAtMost, WritesAtMost};
ghost use Rattle.std.specs.Io.KnownBytes.{Appends, Consumes, IsAtEnd, Keeps};
ghost use Rattle.std.specs.IoError.{error_kind};
ghost use Rattle.nx_io.specs.Readers.{HandsOn, HandsTo};
ghost use Rattle.nx_io.specs.Streams.{Reads, ReadsWithin, Writes, WritesWithin, faults_after_read, faults_after_write, given_after, one_more, over_after};

use crate::history::History;
use crate::streams::{Got, Put, Reach, Sink, Source};
use std::io::{self, ErrorKind, Read, Write};
use std::marker::Model;
use std::snapshot::Snapshot;

/// A source over a reader, which counts the reads that fail. What a file or a socket has left is not known, so it
/// tells only what it gave. A read hands on those bytes that std knows the reader to have.
#[derive(Drop)]
pub struct StdSource<R: Read> {
    reader: R,
    given: History,
    over: bool,
    faults: u64,
}

impl<R: Read> Model for StdSource<R> {
    ghost use Rattle.nx_io.specs.Histories.{bytes_of};
    ghost use Rattle.nx_io.specs.Readers.{Reading};

    ghost Value = { Reading };

    ghost view = { λ s. record { remaining = R.remaining s.reader; given = bytes_of s.given; over = s.over; faults = s.faults } };
}

impl<R: Read> StdSource<R> {
    /// A source that has given nothing and has not failed yet.
    pub fn new(reader: R) -> StdSource<R>
        ensures { result ≡ record { remaining = R.remaining reader; given = []; over = false; faults = 0 } }
    {
        StdSource {
            reader,
            given: History::Start,
            over: false,
            faults: 0,
        }
    }

    /// How often the source has failed.
    pub fn faults(&self) -> u64
        ensures { result ≡ self.now.faults }
    {
        self.faults
    }
}

impl<R: Read> Source for StdSource<R> {
    ghost left = { λ _. None };

    ghost given = { λ s. s.given };

    ghost over = { λ s. s.over };

    ghost faults = { λ s. s.faults };

    /// As of any source. A read that a signal interrupted is tried again, and is no fault.
    fn read(&mut self, into: &mut [u8]) -> Got
        requires { 0 < length into.old }
        ensures within { ReadsWithin result into.new }
        ensures bytes { Reads result None None into.new }
        ensures given { self.new.given ≡ given_after result self.old.given into.new }
        ensures over { self.new.over ≡ over_after result self.old.over }
        ensures later { self.old.faults ≤ self.new.faults }
        ensures count { self.new.faults ≡ faults_after_read result self.old.faults }
        ensures handed { HandsOn result self.old.remaining self.new.remaining into.new }
    {
        match read_uninterrupted(&mut self.reader, into) {
            Ok(0) => {
                self.over = true;
                Got::End
            }
            Ok(count) => {
                self.given.tell(&into[..count]);
                self.over = false;
                Got::Bytes(count)
            }
            Err(_) => {
                self.faults = self.faults.saturating_add(1);
                Got::Failed
            }
        }
    }
}

/// One read, tried again where a signal interrupts it.
pub(crate) fn read_uninterrupted<R: Read>(reader: &mut R, into: &mut [u8]) -> io::Result<usize>
    ensures bound { ReadsAtMost result into.new }
    ensures ok { IfOk result (λ n. Consumes (R.remaining reader.old) (R.remaining reader.new) (take n into.new)) }
    ensures end { IfOk result (λ n. n ≡ 0 → 0 < length into.old → IsAtEnd (R.remaining reader.new)) }
    ensures err { OnErr result (Keeps (R.remaining reader.old) (R.remaining reader.new)) }
    ensures retried { IfErr result (λ e. error_kind e ≢ ErrorKind.Interrupted) }
{
    for _ in 0..u64::MAX {
        match reader.read(into) {
            Ok(count) => return Ok(count),
            Err(error) => {
                if error.kind() != ErrorKind::Interrupted {
                    return Err(error);
                }
            }
        }
    }
    Err(io::Error::from(ErrorKind::TimedOut))
}

/// A sink over a writer, which counts the writes that fail. A writer that takes nothing has failed. A write hands the
/// piece to those bytes that std knows the writer to hold, and keeps nothing back. It knows no disk: a sync does nothing. [`FileSink`]
/// is a sink over a file.
///
/// [`FileSink`]: crate::FileSink
#[derive(Drop)]
pub struct StdSink<W: Write> {
    writer: W,
    sent: History,
    synced: Snapshot<History>,
    faults: u64,
}

impl<W: Write> Model for StdSink<W> {
    ghost use Rattle.std.specs.Prelude.{length};
    ghost use Rattle.nx_io.specs.Histories.{bytes_of};
    ghost use Rattle.nx_io.specs.Readers.{Writing};

    ghost Value = { Writing };

    ghost view = { λ s. record {
      contents = W.contents s.writer;
      sent = bytes_of s.sent;
      synced = length (bytes_of s.synced.value);
      faults = s.faults;
    } };
}

impl<W: Write> StdSink<W> {
    /// A sink that was sent nothing and has not failed yet.
    pub fn new(writer: W) -> StdSink<W>
        ensures { result ≡ record { contents = W.contents writer; sent = []; synced = 0; faults = 0 } }
    {
        StdSink {
            writer,
            sent: History::Start,
            synced: Snapshot::of(&History::Start),
            faults: 0,
        }
    }

    /// How often the sink has failed.
    pub fn faults(&self) -> u64
        ensures { result ≡ self.now.faults }
    {
        self.faults
    }

    /// Counts a fault.
    pub(crate) fn fail(&mut self)
        ensures counted { self.new ≡ record self.old { faults = one_more self.old.faults } }
        ensures later { self.old.faults ≤ self.new.faults }
    {
        self.faults = self.faults.saturating_add(1);
    }
}

impl<W: Write> Sink for StdSink<W> {
    ghost sent = { λ s. s.sent };

    ghost synced = { λ s. s.synced };

    ghost faults = { λ s. s.faults };

    /// As of any sink. A write that a signal interrupted is tried again, and is no fault.
    fn write(&mut self, piece: &[u8]) -> Put
        requires { 0 < length piece.now }
        ensures within { WritesWithin result piece.now }
        ensures bytes { Writes result self.old.sent self.new.sent piece.now }
        ensures synced { self.new.synced ≡ self.old.synced }
        ensures later { self.old.faults ≤ self.new.faults }
        ensures count { self.new.faults ≡ faults_after_write result self.old.faults }
        ensures handed { HandsTo result self.old.contents self.new.contents piece.now }
    {
        match write_uninterrupted(&mut self.writer, piece) {
            Ok(count) if count > 0 => {
                self.sent.tell(&piece[..count]);
                Put::Bytes(count)
            }
            _ => {
                self.faults = self.faults.saturating_add(1);
                Put::Failed
            }
        }
    }

    /// Does nothing: where the writer's bytes last is not known.
    fn sync(&mut self) -> Reach
        ensures ready { result ≡ Reach.Ready }
        ensures others { self.new ≡ record self.old { synced = length self.old.sent } }
    {
        self.synced = Snapshot::of(&self.sent);
        Reach::Ready
    }
}

/// One write, tried again where a signal interrupts it.
pub(crate) fn write_uninterrupted<W: Write>(writer: &mut W, piece: &[u8]) -> io::Result<usize>
    ensures bound { WritesAtMost result piece.now }
    ensures ok { IfOk result (λ n. Appends (W.contents writer.old) (W.contents writer.new) (take n piece.now)) }
    ensures err { OnErr result (Keeps (W.contents writer.old) (W.contents writer.new)) }
    ensures retried { IfErr result (λ e. error_kind e ≢ ErrorKind.Interrupted) }
{
    for _ in 0..u64::MAX {
        match writer.write(piece) {
            Ok(count) => return Ok(count),
            Err(error) => {
                if error.kind() != ErrorKind::Interrupted {
                    return Err(error);
                }
            }
        }
    }
    Err(io::Error::from(ErrorKind::TimedOut))
}
