//! Standard error as a sink for records.
ghost use Rattle.std.specs.Prelude.{◌≡◌, ◌<◌, ◌≤◌, [], length};
ghost use Rattle.nx_io.specs.Readers.{HandsTo};
ghost use Rattle.nx_io.specs.Streams.{Writes, WritesWithin, faults_after_write};

use nx_io::{Put, Reach, Recorder, Shared, Sink, StdRecorder};
use std::fs::{self, Files};
use std::io::Write;
use std::marker::Model;

/// The name of standard error among the open files of the process.
const STANDARD_ERROR: &str = "/proc/self/fd/2";

/// A recorder over standard error, each write of which fails where standard error was closed as this was made: what is opened later may
/// get its place.
#[derive(Drop)]
pub struct StandardError<W: Write + Copy> {
    recorder: StdRecorder<W>,
    is_closed: bool,
    // How often a write has failed since it is closed.
    faults: u64,
}

impl<W: Write + Copy> Model for StandardError<W> {
    ghost use Rattle.std.specs.Prelude.{if◌then◌else◌};
    ghost use Rattle.nx_io.specs.Recorders.{Recording};

    ghost Value = { Recording };

    ghost view = { λ s. record {
      contents = s.recorder.contents;
      sent = s.recorder.sent;
      synced = s.recorder.synced;
      faults = if s.is_closed then s.faults else s.recorder.faults;
      shares = s.recorder.shares;
    } };
}

impl<W: Write + Copy> StandardError<W> {
    /// Standard error, over this writer to it. It is looked at once whether it is closed; nothing is to be opened before.
    pub fn new<R: Files>(rt: &R, writer: W) -> StandardError<W>
        ensures { result ≡ record { contents = W.contents writer; sent = []; synced = 0; faults = 0; shares = 0 } }
    {
        StandardError::over(writer, is_closed(rt))
    }

    fn over(writer: W, is_closed: bool) -> StandardError<W>
        ensures { result ≡ record { contents = W.contents writer; sent = []; synced = 0; faults = 0; shares = 0 } }
    {
        StandardError {
            recorder: StdRecorder::new(writer),
            is_closed,
            faults: 0,
        }
    }
}

impl<W: Write + Copy> Sink for StandardError<W> {
    ghost sent = { λ s. s.sent };

    ghost synced = { λ s. s.synced };

    ghost faults = { λ s. s.faults };

    /// As of any sink. A write fails where standard error is closed.
    fn write(&mut self, piece: &[u8]) -> Put
        requires { 0 < length piece.now }
        ensures within { WritesWithin result piece.now }
        ensures bytes { Writes result self.old.sent self.new.sent piece.now }
        ensures synced { self.new.synced ≡ self.old.synced }
        ensures later { self.old.faults ≤ self.new.faults }
        ensures count { self.new.faults ≡ faults_after_write result self.old.faults }
        ensures handed { HandsTo result self.old.contents self.new.contents piece.now }
        ensures shares { self.new.shares ≡ self.old.shares }
    {
        if self.is_closed {
            self.faults = self.faults.saturating_add(1);
            Put::Failed
        } else {
            self.recorder.write(piece)
        }
    }

    /// As of any sink: it does nothing.
    fn sync(&mut self) -> Reach
        ensures ready { result ≡ Reach.Ready }
        ensures others { self.new ≡ record self.old { synced = length self.old.sent } }
    {
        self.recorder.sync()
    }
}

impl<W: Write + Copy> Recorder for StandardError<W> {
    ghost shares = { λ s. s.shares };

    /// As of any recorder. There always is a share.
    fn share(&mut self) -> Shared<StandardError<W>> {
        match self.recorder.share() {
            Shared::Made(recorder) => Shared::Made(StandardError {
                recorder,
                is_closed: self.is_closed,
                faults: 0,
            }),
            Shared::Failed => Shared::Failed,
            Shared::NoMemory => Shared::NoMemory,
        }
    }
}

/// Whether standard error is closed: /proc is there, and has it not.
fn is_closed<R: Files>(rt: &R) -> bool {
    fs::metadata(rt, "/proc/self/fd").is_ok() && fs::symlink_metadata(rt, STANDARD_ERROR).is_err()
}
