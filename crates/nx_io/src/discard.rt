// A sink that keeps nothing.
ghost use Rattle.std.specs.Prelude.{◌<◌, ◌≡◌, ◌++◌, [], length};

use crate::history::History;
use crate::streams::{Put, Reach, Sink};
use std::marker::Model;
use std::snapshot::Snapshot;

/// A sink that takes every piece whole, keeps nothing and never fails. It tells what it was sent.
#[derive(Drop)]
pub struct Discard {
    sent: History,
    synced: Snapshot<History>,
}

impl Model for Discard {
    ghost use Rattle.std.specs.Prelude.{length};
    ghost use Rattle.nx_io.specs.Histories.{bytes_of};
    ghost use Rattle.nx_io.specs.Readers.{Discarded};

    ghost Value = { Discarded };

    ghost view = { λ d. record { sent = bytes_of d.sent; synced = length (bytes_of d.synced.value) } };
}

impl Discard {
    /// A sink that was sent nothing. It takes no memory.
    pub fn new() -> Discard
        ensures { result ≡ record { sent = []; synced = 0 } }
    {
        Discard {
            sent: History::Start,
            synced: Snapshot::of(&History::Start),
        }
    }
}

impl Sink for Discard {
    ghost sent = { λ d. d.sent };

    ghost synced = { λ d. d.synced };

    ghost faults = { λ _. 0 };

    /// Takes the whole piece.
    fn write(&mut self, piece: &[u8]) -> Put
        requires { 0 < length piece.now }
        ensures whole { result ≡ Put.Bytes (length piece.now) }
        ensures sent { self.new ≡ record self.old { sent = self.old.sent ++ piece.now } }
    {
        self.sent.tell(piece);
        Put::Bytes(piece.len())
    }

    /// Does nothing: there is no place where it lasts.
    fn sync(&mut self) -> Reach
        ensures ready { result ≡ Reach.Ready }
        ensures synced { self.new ≡ record self.old { synced = length self.old.sent } }
    {
        self.synced = Snapshot::of(&self.sent);
        Reach::Ready
    }
}
