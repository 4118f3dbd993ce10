// Bytes that wait their turn.
ghost use Rattle.std.specs.Prelude.{false, IfOk, ◌≡◌, ◌↔◌, ◌<◌, ◌≤◌, ◌++◌, ◌-◌, ◌⊎◌, [], IsTrue, ℕ, drop, length, min, take};
ghost use Rattle.nx_io.specs.Duplexes.{AreSame};
ghost use Rattle.nx_io.specs.Streams.{faults_after_read};

use crate::duplex::Duplex;
use crate::streams::Got;
use std::alloc::{AllocError, Global};
use std::marker::Model;

/// How many bytes a queue holds.
pub(crate) const CAPACITY: usize = 4096;

/// Bytes in the order in which they came. A queue takes no memory beside its own.
#[derive(Drop)]
pub(crate) struct Queue {
    bytes: [u8; CAPACITY],
    start: usize,
    end: usize,
}

impl Model for Queue {
    ghost use Rattle.std.specs.Prelude.{◌≤◌, ◌-◌, drop, take};
    ghost use Rattle.nx_io.specs.Inner.Queues.{Queued};

    ghost Value = { Queued };

    ghost view = { λ q. record { waiting = drop q.start (take q.end q.bytes); room = 4096 - q.end } };

    ghost invariant = { λ q. (q.start ≤ q.end) × (q.end ≤ 4096) };
}

impl Queue {
    /// An empty queue.
    pub(crate) fn new() -> Queue
        ensures { result ≡ record { waiting = []; room = 4096 } }
    {
        Queue {
            bytes: [0; CAPACITY],
            start: 0,
            end: 0,
        }
    }

    /// Whether no byte waits.
    pub(crate) fn is_empty(&self) -> bool
        ensures { IsTrue result ↔ (self.now.waiting ≡ []) }
    {
        self.waiting().is_empty()
    }

    /// How many bytes it has room for.
    pub(crate) fn room(&self) -> usize
        ensures { result ≡ self.now.room }
    {
        CAPACITY - self.end
    }

    /// The bytes that wait.
    pub(crate) fn waiting(&self) -> &[u8]
        ensures { result.now ≡ self.now.waiting }
    {
        &self.bytes[self.start..self.end]
    }

    /// Takes bytes off the front.
    pub(crate) fn skip(&mut self, count: usize)
        requires { count ≤ length self.old.waiting }
        ensures waiting { self.new.waiting ≡ drop count self.old.waiting }
        ensures room { self.new.room ≡ self.old.room }
    {
        self.start += count;
    }

    /// Makes an empty queue have all its room again.
    pub(crate) fn reset(&mut self)
        requires { self.old.waiting ≡ [] }
        ensures { self.new ≡ record { waiting = []; room = 4096 } }
    {
        self.start = 0;
        self.end = 0;
    }

    /// Appends as much of the front of a piece as there is room for.
    pub(crate) fn push(&mut self, piece: &[u8]) -> usize
        ensures count { result ≡ min (length piece.now) self.old.room }
        ensures waiting { self.new.waiting ≡ self.old.waiting ++ take result piece.now }
        ensures room { self.new.room ≡ self.old.room - result }
    {
        let count = piece.len().min(CAPACITY - self.end);
        let end = self.end + count;
        self.bytes[self.end..end].copy_from_slice(&piece[..count]);
        self.end = end;
        count
    }

    /// Moves as many bytes as the buffer has room for off the front, into its front.
    pub(crate) fn pop_into(&mut self, into: &mut [u8]) -> usize
        ensures count { result ≡ min (length self.old.waiting) (length into.old) }
        ensures kept { length into.new ≡ length into.old }
        ensures waiting { self.old.waiting ≡ take result into.new ++ self.new.waiting }
    {
        let count = (self.end - self.start).min(into.len());
        let start = self.start + count;
        into[..count].copy_from_slice(&self.bytes[self.start..start]);
        self.start = start;
        count
    }

    /// Reads into an empty queue, once.
    pub(crate) fn fill<S: Duplex>(&mut self, stream: &mut S) -> Got
        requires empty { self.old.waiting ≡ [] }
        requires open { S.shut stream.old ≡ false }
        ensures read { S.given stream.new ≡ S.given stream.old ++ self.new.waiting }
        ensures empty { (result ≡ Got.End ⊎ result ≡ Got.Failed) → self.new.waiting ≡ [] }
        ensures filled { (count : ℕ) → result ≡ Got.Bytes count → (1 ≤ count) × (length self.new.waiting ≡ count) }
        ensures others { AreSame (S.sent stream.old) (S.sent stream.new) (S.shut stream.old) (S.shut stream.new)
            (S.admitted stream.old) (S.admitted stream.new) }
        ensures count { S.faults stream.new ≡ faults_after_read result (S.faults stream.old) }
    {
        let got = stream.read(&mut self.bytes);
        self.start = 0;
        self.end = 0;
        if let Got::Bytes(count) = got {
            self.end = count;
        }
        got
    }
}

/// Two queues.
#[derive(Drop)]
pub(crate) struct Both {
    pub(crate) ahead: Queue,
    pub(crate) behind: Queue,
}

/// The queues of a link, on the heap: bytes that came and were not yet taken, and bytes that wait to be written.
#[derive(Drop)]
pub(crate) struct Queues {
    pub(crate) both: Box<Both>,
}

impl Model for Queues {
    ghost use Rattle.nx_io.specs.Inner.Queues.{BothQueued};

    ghost Value = { BothQueued };

    ghost view = { λ q. record { ahead = q.both.value.ahead; behind = q.both.value.behind } };
}

impl Queues {
    /// Two empty queues. An `Err` says that there was no memory for them.
    pub(crate) fn new(alloc: Global) -> Result<Queues, AllocError>
        ensures ahead { IfOk result (λ queues. queues.ahead ≡ record { waiting = []; room = 4096 }) }
        ensures behind { IfOk result (λ queues. queues.behind ≡ record { waiting = []; room = 4096 }) }
    {
        let both = Both {
            ahead: Queue::new(),
            behind: Queue::new(),
        };
        Ok(Queues {
            both: Box::new(alloc, both)?,
        })
    }
}
