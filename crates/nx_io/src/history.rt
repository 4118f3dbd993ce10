// What an object has given or taken, for contracts alone.
ghost use Rattle.std.specs.Prelude.{◌≡◌, ◌∷◌, ◌++◌, []};
ghost use Rattle.nx_io.specs.Histories.{bytes_of};

use std::snapshot::Snapshot;

/// A list of bytes that only contracts read. It takes no memory however long it grows: what stands before the last
/// byte is known, and not kept.
#[derive(Drop)]
pub enum History {
    /// No byte.
    Start,
    /// One byte more.
    Then { before: Snapshot<History>, byte: u8 },
}

impl History {
    /// The history of these bytes.
    pub fn of(piece: &[u8]) -> History
        ensures { bytes_of result ≡ piece.now }
    {
        let mut told = History::Start;
        told.tell(piece);
        told
    }

    /// Appends a piece. Compiled code does nothing for it.
    pub fn tell(&mut self, piece: &[u8])
        ensures { bytes_of self.new ≡ bytes_of self.old ++ piece.now }
    {
        for byte in piece {
            self.tell_one(*byte);
        }
    }

    fn tell_one(&mut self, byte: u8)
        ensures { bytes_of self.new ≡ bytes_of self.old ++ byte ∷ [] }
    {
        let before = Snapshot::of(self);
        *self = History::Then { before, byte };
    }
}
