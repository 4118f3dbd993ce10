// Connections to a peer, by the histories of what was taken and sent, and by a count of their faults.
// `docs/ARCHITECTURE.md`, "What contracts see of the outside", states the form that all such traits have.
ghost use Rattle.std.specs.Prelude.{◌≡◌, ◌<◌, ◌≤◌, Bool, List, Option, ℕ, false, length, true};
ghost use Rattle.nx_io.specs.Streams.{MayRise, Reads, ReadsWithin, SendsAll, Writes, WritesWithin, faults_after_reach, faults_after_read, faults_after_write, given_after, over_after};
ghost use Rattle.nx_io.specs.Links.{KeepsComing, KeepsGoing, KeepsOrigin};

use crate::streams::{Got, Put, Reach};

/// A connection to a peer: bytes come from it and go to it.
pub trait Link {
    /// The bytes still to come, where the link knows them: one in memory does.
    ghost left: { Self → Option (List ℕ) };

    /// The bytes that its takes have given, in order. Every link tells them.
    ghost taken: { Self → List ℕ };

    /// The bytes that its sends have accepted, in order. Every link tells them.
    ghost sent: { Self → List ℕ };

    /// Whether its end was answered, and nothing was taken since.
    ghost over: { Self → Bool };

    /// Whether it was closed.
    ghost closed: { Self → Bool };

    /// Whether it was told that its peer is admitted. `admit` alone sets it.
    ghost admitted: { Self → Bool };

    /// The number of the link among those that its door gave by `next`, from 1, and 0 for one that was dialed. No call
    /// changes it.
    ghost place: { Self → ℕ };

    /// The address that was dialed for it. None for a link that a door gave by `next`. No call changes it.
    ghost toward: { Self → Option (List ℕ) };

    /// How often the link has failed. The count stands still at its type's end.
    ghost faults: { Self → ℕ };

    /// Takes some bytes into the front of the buffer, which has room for one at least. The link is open.
    ///
    /// `Bytes(n)` took the first n bytes to come, n being at least 1, and put them there. `End` comes only where
    /// none is to come. `Failed` comes only where the link failed in this call, and took none. The count of faults
    /// rises by one at `Failed` and at no other answer.
    fn take(&mut self, into: &mut [u8]) -> Got
        requires room { 0 < length into.old }
        requires open { closed self.old ≡ false }
        ensures within { ReadsWithin result into.new }
        ensures bytes { Reads result (left self.old) (left self.new) into.new }
        ensures taken { taken self.new ≡ given_after result (taken self.old) into.new }
        ensures over { over self.new ≡ over_after result (over self.old) }
        ensures going { KeepsGoing (sent self.old) (sent self.new) (closed self.old) (closed self.new) }
        ensures origin { KeepsOrigin (place self.old) (place self.new) (toward self.old) (toward self.new) }
        ensures admitted { admitted self.new ≡ admitted self.old }
        ensures later { faults self.old ≤ faults self.new }
        ensures count { faults self.new ≡ faults_after_read result (faults self.old) };

    /// Sends some bytes of the front of a piece, which has one at least. The link is open. The bytes may wait in it until it
    /// would wait for bytes itself, or is closed.
    ///
    /// `Bytes(n)` accepted the first n bytes of the piece, n being at least 1. `Failed` comes only where the link failed
    /// in this call, and accepted none. The count of faults rises by one at `Failed` and at no other answer.
    fn send(&mut self, piece: &[u8]) -> Put
        requires some { 0 < length piece.now }
        requires open { closed self.old ≡ false }
        ensures within { WritesWithin result piece.now }
        ensures bytes { Writes result (sent self.old) (sent self.new) piece.now }
        ensures closed { closed self.new ≡ closed self.old }
        ensures coming { KeepsComing (left self.old) (left self.new) (taken self.old) (taken self.new) (over
            self.old) (over self.new) }
        ensures origin { KeepsOrigin (place self.old) (place self.new) (toward self.old) (toward self.new) }
        ensures admitted { admitted self.new ≡ admitted self.old }
        ensures later { faults self.old ≤ faults self.new }
        ensures count { faults self.new ≡ faults_after_write result (faults self.old) };

    /// Tells the link that its peer is admitted. A link of the system is more patient from then on.
    fn admit(&mut self)
        ensures admitted { admitted self.new ≡ true }
        ensures coming { KeepsComing (left self.old) (left self.new) (taken self.old) (taken self.new) (over
            self.old) (over self.new) }
        ensures going { KeepsGoing (sent self.old) (sent self.new) (closed self.old) (closed self.new) }
        ensures origin { KeepsOrigin (place self.old) (place self.new) (toward self.old) (toward self.new) }
        ensures count { faults self.new ≡ faults self.old };

    /// Closes the link: what it accepted is put out, and its buffers are given back. The count of faults rises by one
    /// where that could not be put out, and else stands still.
    fn close(&mut self)
        ensures closed { closed self.new ≡ true }
        ensures sent { sent self.new ≡ sent self.old }
        ensures coming { KeepsComing (left self.old) (left self.new) (taken self.old) (taken self.new) (over
            self.old) (over self.new) }
        ensures origin { KeepsOrigin (place self.old) (place self.new) (toward self.old) (toward self.new) }
        ensures admitted { admitted self.new ≡ admitted self.old }
        ensures later { faults self.old ≤ faults self.new }
        ensures count { MayRise (faults self.old) (faults self.new) };
}

/// Sends a whole piece over an open link, in as many sends as it takes. It takes no memory.
///
/// At `Ready` all of it was sent, and no send failed. `Failed` comes where one send failed, which was the last, and
/// a proper part of the piece was sent.
pub fn send_whole<L: Link>(link: &mut L, piece: &[u8]) -> Reach
    requires open { L.closed link.old ≡ false }
    ensures bytes { SendsAll result (L.sent link.old) (L.sent link.new) piece.now }
    ensures closed { L.closed link.new ≡ L.closed link.old }
    ensures coming { KeepsComing (L.left link.old) (L.left link.new) (L.taken link.old) (L.taken link.new) (L.over
        link.old) (L.over link.new) }
    ensures origin { KeepsOrigin (L.place link.old) (L.place link.new) (L.toward link.old) (L.toward link.new) }
    ensures admitted { L.admitted link.new ≡ L.admitted link.old }
    ensures later { L.faults link.old ≤ L.faults link.new }
    ensures count { L.faults link.new ≡ faults_after_reach result (L.faults link.old) }
{
    let mut done = 0;
    while done < piece.len() {
        match link.send(&piece[done..]) {
            Put::Bytes(count) => done += count,
            Put::Failed => return Reach::Failed,
        }
    }
    Reach::Ready
}
