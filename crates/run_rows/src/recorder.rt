// A sink for records in memory, whose shares hold so many bytes each, and of which one share may fail.
ghost use Rattle.std.specs.Prelude.{◌≡◌, ◌<◌, ◌≤◌, [], length};
ghost use Rattle.nx_io.specs.Streams.{Writes, WritesWithin, faults_after_reach, faults_after_write, synced_after};

use nx_io::{MemSink, Put, Reach, Recorder, Shared, Sink};
use std::alloc::{AllocError, Global};

// The recorder, or a share of it. `unshared` counts the shares that failed.
#[derive(Drop)]
pub struct MemRecorder {
    alloc: Global,
    sink: MemSink,
    holds: usize,
    fails: u64,
    shares: u64,
    unshared: u64,
}

impl MemRecorder {
    // A recorder that holds 100 bytes itself, whose shares hold so many, and whose share with this number fails.
    pub fn new(alloc: Global, holds: usize, fails: u64) -> Result<MemRecorder, AllocError> {
        let sink = MemSink::new(alloc, 100, 1, &[], &[])?;
        Ok(MemRecorder {
            alloc,
            sink,
            holds,
            fails,
            shares: 0,
            unshared: 0,
        })
    }

    // What it was sent.
    pub fn sent(&self) -> &[u8] {
        self.sink.sent()
    }
}

impl Sink for MemRecorder {
    ghost use Rattle.std.specs.Prelude.{◌+◌, ◌-◌, ◌^◌, min};

    ghost sent = { λ s. s.sink.sent };

    ghost synced = { λ s. s.sink.synced };

    ghost faults = { λ s. min (s.sink.faults + s.unshared) (2 ^ 64 - 1) };

    fn write(&mut self, piece: &[u8]) -> Put {
        self.sink.write(piece)
    }

    fn sync(&mut self) -> Reach {
        self.sink.sync()
    }
}

impl Recorder for MemRecorder {
    ghost shares = { λ s. s.shares };

    fn share(&mut self) -> Shared<MemRecorder> {
        self.shares = self.shares.saturating_add(1);
        if self.shares == self.fails {
            self.unshared = self.unshared.saturating_add(1);
            return Shared::Failed;
        }
        match MemSink::new(self.alloc, self.holds, 1000, &[], &[]) {
            Ok(sink) => Shared::Made(MemRecorder {
                alloc: self.alloc,
                sink,
                holds: self.holds,
                fails: 0,
                shares: 0,
                unshared: 0,
            }),
            Err(AllocError) => Shared::NoMemory,
        }
    }
}
