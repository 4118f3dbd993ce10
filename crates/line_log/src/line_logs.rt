// A log over a wire.
ghost use Rattle.std.specs.Prelude.{◌≡◌, ◌≤◌, ◌<◌, ◌++◌, [], length, ◌∷◌};
ghost use Rattle.nx_io.specs.Streams.{Writes, WritesWithin, faults_after_reach, faults_after_write};
ghost use Rattle.line_log.specs.LineLogs.{Handles, after_reach, new_log};

use crate::keepers::Keeper;
use crate::logs::Log;
use crate::standings::Standing;
use crate::wires::LogWire;
use nx_io::{History, Put, Reach, Sink};
use std::alloc::Global;
use std::marker::Model;
use std::net::{Net, TcpListener, TcpStream};
use std::snapshot::Snapshot;

/// A log over a wire to its keeper. What is handed to it by the first write is the opening text, whose lines the keeper may have
/// already; each later write is a change. `docs/FORMATS.md`, "Logs", states what goes over the wire.
#[derive(Drop)]
pub struct LineLog<W: LogWire + Drop> {
    alloc: Global,
    keeper: Keeper<W>,
    is_opened: bool,
    standing: Standing,
    sent: History,
    synced: Snapshot<History>,
    faults: u64,
}

impl<W: LogWire + Drop> Model for LineLog<W> {
    ghost use Rattle.std.specs.Prelude.{length};
    ghost use Rattle.nx_io.specs.Histories.{bytes_of};
    ghost use Rattle.line_log.specs.LineLogs.{IsLog, Logging};

    ghost Value = { Logging };

    ghost view = { λ l. record {
      keeper = l.keeper;
      is_opened = l.is_opened;
      standing = l.standing;
      sent = bytes_of l.sent;
      synced = length (bytes_of l.synced.value);
      faults = l.faults;
    } };

    ghost invariant = { λ l. IsLog (record {
      keeper = l.keeper;
      is_opened = l.is_opened;
      standing = l.standing;
      sent = bytes_of l.sent;
      synced = length (bytes_of l.synced.value);
      faults = l.faults;
    }) };
}

impl<W: LogWire + Drop> LineLog<W> {
    /// A log that was sent nothing and has not failed yet, over a wire of which nothing was asked.
    pub fn new(alloc: Global, wire: W) -> LineLog<W>
        requires { W.calls wire ≡ [] }
        ensures { result ≡ new_log }
    {
        LineLog {
            alloc,
            keeper: Keeper { wire, count: 0 },
            is_opened: false,
            standing: Standing::New,
            sent: History::Start,
            synced: Snapshot::of(&History::Start),
            faults: 0,
        }
    }

    /// How many lines were kept.
    pub fn count(&self) -> u64
        ensures { result ≡ self.now.keeper.count }
    {
        self.keeper.count
    }

    /// The wire to the keeper.
    pub fn wire(&self) -> &W
        ensures { W.calls result.now ≡ self.now.keeper.calls }
    {
        &self.keeper.wire
    }

    /// How often the log has failed.
    pub fn faults(&self) -> u64
        ensures { result ≡ self.now.faults }
    {
        self.faults
    }
}

impl<W: LogWire + Drop> Sink for LineLog<W> {
    ghost sent = { λ l. l.sent };

    ghost synced = { λ l. l.synced };

    ghost faults = { λ l. l.faults };

    /// As of any sink. It takes whole lines: it fails where the keeper was not reached, where the piece begins with a part of a line,
    /// where the keeper gives any other answer than that it keeps the line, no piece of one within five seconds, or an end, and where
    /// there is no memory; and from then on always.
    fn write(&mut self, piece: &[u8]) -> Put
        requires { 0 < length piece.now }
        ensures within { WritesWithin result piece.now }
        ensures bytes { Writes result self.old.sent self.new.sent piece.now }
        ensures synced { self.new.synced ≡ self.old.synced }
        ensures later { self.old.faults ≤ self.new.faults }
        ensures count { self.new.faults ≡ faults_after_write result self.old.faults }
        ensures handled { Handles self.old piece.now result self.new }
    {
        let is_change = self.is_opened;
        self.is_opened = true;
        let Standing::Reached = self.standing else {
            self.standing = Standing::Failed;
            self.faults = self.faults.saturating_add(1);
            return Put::Failed;
        };
        let kept = self.keeper.keep_lines(self.alloc, is_change, piece);
        self.sent.tell(&piece[..kept]);
        if kept == piece.len() {
            return Put::Bytes(kept);
        }
        self.standing = Standing::Failed;
        if kept > 0 {
            return Put::Bytes(kept);
        }
        self.faults = self.faults.saturating_add(1);
        Put::Failed
    }

    /// As of any sink: what was sent was kept, so nothing is left to do.
    fn sync(&mut self) -> Reach
        ensures ready { result ≡ Reach.Ready }
        ensures others { self.new ≡ record self.old { synced = length self.old.sent } }
    {
        self.synced = Snapshot::of(&self.sent);
        Reach::Ready
    }
}

impl<W: LogWire + Drop> Log for LineLog<W> {
    ghost use Rattle.line_log.specs.LogCalls.{addresses_in};

    ghost asked = { λ l. addresses_in l.keeper.calls };

    /// As of any log: its wire connects. A log that has failed before takes nothing all the same.
    fn reach<R: Net<Listener = TcpListener, Stream = TcpStream>>(
        &mut self,
        rt: &R,
        address: &[u8],
    ) -> Reach
        ensures after { self.new ≡ after_reach address.now result self.old }
        ensures later { self.old.faults ≤ self.new.faults }
        ensures count { self.new.faults ≡ faults_after_reach result self.old.faults }
    {
        match self.keeper.connect(rt, address) {
            Reach::Ready => {
                if let Standing::New = self.standing {
                    self.standing = Standing::Reached;
                }
                Reach::Ready
            }
            Reach::Failed => {
                self.standing = Standing::Failed;
                self.faults = self.faults.saturating_add(1);
                Reach::Failed
            }
        }
    }
}
