// Sources and sinks, by the histories of what they gave and took, and by a count of their faults.
// `docs/ARCHITECTURE.md`, "What contracts see of the outside", states the form that all such traits have.
ghost use Rattle.std.specs.Prelude.{◌≡◌, ◌<◌, ◌≤◌, Bool, List, Option, ℕ, length};
ghost use Rattle.nx_io.specs.Streams.{Reads, ReadsWithin, SendsAll, Writes, WritesWithin, faults_after_reach, faults_after_read, faults_after_write, given_after, over_after, synced_after};

/// What a read answers.
#[derive(Clone, Copy, Debug, PartialEq, Eq)]
pub enum Got {
    /// So many bytes stand at the front of the buffer.
    Bytes(usize),
    /// There is no byte to come.
    End,
    /// The source has failed.
    Failed,
}

/// What a write answers.
#[derive(Clone, Copy, Debug, PartialEq, Eq)]
pub enum Put {
    /// So many bytes of the front of the piece were taken.
    Bytes(usize),
    /// The sink has failed.
    Failed,
}

/// What a call answers that is done as a whole or fails.
#[derive(Clone, Copy, Debug, PartialEq, Eq)]
pub enum Reach {
    /// It is done.
    Ready,
    /// The object that was asked has failed.
    Failed,
}

/// What is answered where a share of an object is asked for.
#[derive(Drop)]
pub enum Shared<T> {
    /// The share.
    Made(T),
    /// The object has failed.
    Failed,
    /// There is no memory for it.
    NoMemory,
}

/// Where bytes come from.
pub trait Source {
    /// The bytes still to come, where the source knows them: one in memory does.
    ghost left: { Self → Option (List ℕ) };

    /// The bytes that its reads have given, in order. Every source tells them.
    ghost given: { Self → List ℕ };

    /// Whether its end was answered, and nothing was given since.
    ghost over: { Self → Bool };

    /// How often the source has failed. The count stands still at its type's end.
    ghost faults: { Self → ℕ };

    /// Reads some bytes into the front of the buffer, which has room for one at least.
    ///
    /// `Bytes(n)` took the first n bytes to come, n being at least 1, and put them there. `End` comes only where
    /// none is to come. `Failed` comes only where the source failed in this call, and took none. The count of faults
    /// rises by one at `Failed` and at no other answer.
    fn read(&mut self, into: &mut [u8]) -> Got
        requires { 0 < length into.old }
        ensures within { ReadsWithin result into.new }
        ensures bytes { Reads result (left self.old) (left self.new) into.new }
        ensures given { given self.new ≡ given_after result (given self.old) into.new }
        ensures over { over self.new ≡ over_after result (over self.old) }
        ensures later { faults self.old ≤ faults self.new }
        ensures count { faults self.new ≡ faults_after_read result (faults self.old) };
}

/// Where bytes go to.
pub trait Sink {
    /// The bytes that its writes have taken, in order. Every sink tells them.
    ghost sent: { Self → List ℕ };

    /// How many of them the last sync has brought to where they last, which are those at the front.
    ghost synced: { Self → ℕ };

    /// How often the sink has failed. The count stands still at its type's end.
    ghost faults: { Self → ℕ };

    /// Sends some bytes of the front of a piece, which has one at least.
    ///
    /// `Bytes(n)` sent the first n bytes of the piece, n being at least 1. `Failed` comes only where the sink failed
    /// in this call, and sent none. The count of faults rises by one at `Failed` and at no other answer.
    fn write(&mut self, piece: &[u8]) -> Put
        requires { 0 < length piece.now }
        ensures within { WritesWithin result piece.now }
        ensures bytes { Writes result (sent self.old) (sent self.new) piece.now }
        ensures synced { synced self.new ≡ synced self.old }
        ensures later { faults self.old ≤ faults self.new }
        ensures count { faults self.new ≡ faults_after_write result (faults self.old) };

    /// Brings all that was sent to where it lasts: of a file, to its disk. What has no such place is `Ready` at once.
    ///
    /// `Failed` comes only where the sink failed in this call. The count of faults rises by one at `Failed` and at no other answer.
    fn sync(&mut self) -> Reach
        ensures sent { sent self.new ≡ sent self.old }
        ensures synced { synced self.new ≡ synced_after result (sent self.old) (synced self.old) }
        ensures later { faults self.old ≤ faults self.new }
        ensures count { faults self.new ≡ faults_after_reach result (faults self.old) };
}

/// Sends a whole piece, in as many writes as it takes. It takes no memory.
///
/// At `Ready` all of it was sent, and no write failed. `Failed` comes where one write failed, which was the last, and
/// a proper part of the piece was sent.
pub fn send_all<K: Sink>(sink: &mut K, piece: &[u8]) -> Reach
    ensures bytes { SendsAll result (K.sent sink.old) (K.sent sink.new) piece.now }
    ensures synced { K.synced sink.new ≡ K.synced sink.old }
    ensures later { K.faults sink.old ≤ K.faults sink.new }
    ensures count { K.faults sink.new ≡ faults_after_reach result (K.faults sink.old) }
{
    let mut done = 0;
    while done < piece.len() {
        match sink.write(&piece[done..]) {
            Put::Bytes(count) => done += count,
            Put::Failed => return Reach::Failed,
        }
    }
    Reach::Ready
}
