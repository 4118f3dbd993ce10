// Sinks for records, of which each of those that record has a share.
// `docs/ARCHITECTURE.md`, "What contracts see of the outside", states the form that all such traits have.
ghost use Rattle.std.specs.Prelude.{◌≡◌, ◌≢◌, ◌<◌, ◌≤◌, [], ℕ, length};
ghost use Rattle.nx_io.specs.Doors.{IfMade};
ghost use Rattle.nx_io.specs.Readers.{HandsTo};
ghost use Rattle.nx_io.specs.Recorders.{faults_after_share};
ghost use Rattle.nx_io.specs.Streams.{Writes, WritesWithin, faults_after_write, one_more};

use crate::standard::StdSink;
use crate::streams::{Put, Reach, Shared, Sink};
use std::io::Write;
use std::marker::Model;

/// A sink for records, which several may have a share of.
pub trait Recorder: Sink {
    /// How often it was asked for a share. The count stands still at its type's end.
    ghost shares: { Self → ℕ };

    /// A sink to where this one goes, which was sent nothing and has not failed yet.
    ///
    /// `Failed` comes only where this one failed in this call. `NoMemory` says that there was no memory for the share.
    fn share(&mut self) -> Shared<Self>
    where
        Self: Sized,
        ensures fresh { IfMade result (λ share. (Self.sent share ≡ []) × (Self.faults share ≡ 0)) }
        ensures shares { shares self.new ≡ one_more (shares self.old) }
        ensures sent { Self.sent self.new ≡ Self.sent self.old }
        ensures synced { Self.synced self.new ≡ Self.synced self.old }
        ensures later { Self.faults self.old ≤ Self.faults self.new }
        ensures count { Self.faults self.new ≡ faults_after_share result (Self.faults self.old) };
}

/// A recorder over a writer of which there may be as many as one likes, as standard error: each share has a writer of its own, and hands
/// each piece to it at once.
#[derive(Drop)]
pub struct StdRecorder<W: Write + Copy> {
    writer: W,
    sink: StdSink<W>,
    shares: u64,
}

impl<W: Write + Copy> Model for StdRecorder<W> {
    ghost use Rattle.nx_io.specs.Recorders.{Recording};

    ghost Value = { Recording };

    ghost view = { λ s. record {
      contents = s.sink.contents;
      sent = s.sink.sent;
      synced = s.sink.synced;
      faults = s.sink.faults;
      shares = s.shares;
    } };
}

impl<W: Write + Copy> StdRecorder<W> {
    /// A recorder that was sent nothing, has not failed yet, and was asked for no share.
    pub fn new(writer: W) -> StdRecorder<W>
        ensures { result ≡ record { contents = W.contents writer; sent = []; synced = 0; faults = 0; shares = 0 } }
    {
        StdRecorder {
            writer,
            sink: StdSink::new(writer),
            shares: 0,
        }
    }
}

impl<W: Write + Copy> Sink for StdRecorder<W> {
    ghost sent = { λ s. s.sent };

    ghost synced = { λ s. s.synced };

    ghost faults = { λ s. s.faults };

    /// As of [`StdSink`].
    fn write(&mut self, piece: &[u8]) -> Put
        requires { 0 < length piece.now }
        ensures within { WritesWithin result piece.now }
        ensures bytes { Writes result self.old.sent self.new.sent piece.now }
        ensures synced { self.new.synced ≡ self.old.synced }
        ensures later { self.old.faults ≤ self.new.faults }
        ensures count { self.new.faults ≡ faults_after_write result self.old.faults }
        ensures handed { HandsTo result self.old.contents self.new.contents piece.now }
        ensures shares { self.new.shares ≡ self.old.shares }
    {
        self.sink.write(piece)
    }

    /// As of [`StdSink`].
    fn sync(&mut self) -> Reach
        ensures ready { result ≡ Reach.Ready }
        ensures others { self.new ≡ record self.old { synced = length self.old.sent } }
    {
        self.sink.sync()
    }
}

impl<W: Write + Copy> Recorder for StdRecorder<W> {
    ghost shares = { λ s. s.shares };

    /// As of any recorder. There always is a share.
    fn share(&mut self) -> Shared<StdRecorder<W>>
        ensures made { IfMade result (λ share. (share.sent ≡ []) × (share.faults ≡ 0)) }
        ensures is_made { result ≢ Shared.Failed }
        ensures others { self.new ≡ record self.old { shares = one_more self.old.shares } }
    {
        self.shares = self.shares.saturating_add(1);
        Shared::Made(StdRecorder::new(self.writer))
    }
}
