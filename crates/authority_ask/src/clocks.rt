// Clocks, by what they gave and by a count of their faults.
ghost use Rattle.std.specs.Prelude.{◌≡◌, ◌≤◌, Option, Some, None, ℕ};
ghost use Rattle.nx_io.specs.Streams.{one_more};
ghost use Rattle.authority_ask.specs.Clocks.{faults_after_now};

use std::marker::Model;
use std::net::{Net, TcpListener, TcpStream};
use std::rt::Clock as SystemClock;
use std::time::{SystemTime, UNIX_EPOCH};

/// Tells the time, as seconds since the start of 1970 UTC.
pub trait Clock {
    /// What the last call of `now` answered. None where there was none.
    ghost given: { Self → Option ℕ };

    /// How often `now` was called. The count stands still at its type's end.
    ghost calls: { Self → ℕ };

    /// How often the clock has failed. The count stands still at its type's end.
    ghost faults: { Self → ℕ };

    /// The time. None comes only where the clock failed in this call: the count of faults rises by one at None, and
    /// stands still otherwise.
    fn now<R: Net<Listener = TcpListener, Stream = TcpStream> + SystemClock>(
        &mut self,
        rt: &R,
    ) -> Option<u64>
        ensures given { given self.new ≡ result }
        ensures calls { calls self.new ≡ one_more (calls self.old) }
        ensures later { faults self.old ≤ faults self.new }
        ensures count { faults self.new ≡ faults_after_now result (faults self.old) };

    /// A clock of the same time, which was not called and has not failed yet.
    fn share(&self) -> Self
        ensures given { given result ≡ None }
        ensures calls { calls result ≡ 0 }
        ensures faults { faults result ≡ 0 };
}

/// A clock that gives one answer at each call, and so do its shares.
#[derive(Drop)]
pub struct MemClock {
    answer: Option<u64>,
    given: Option<u64>,
    calls: u64,
    faults: u64,
}

impl Model for MemClock {
    ghost use Rattle.authority_ask.specs.Clocks.{Ticking};

    ghost Value = { Ticking };

    ghost view = { λ c. record { answer = c.answer; given = c.given; calls = c.calls; faults = c.faults } };
}

impl MemClock {
    /// A clock of this answer. At None it fails at each call.
    pub fn new(answer: Option<u64>) -> MemClock
        ensures { result ≡ record { answer = answer; given = None; calls = 0; faults = 0 } }
    {
        MemClock {
            answer,
            given: None,
            calls: 0,
            faults: 0,
        }
    }
}

impl Clock for MemClock {
    ghost given = { λ c. c.given };

    ghost calls = { λ c. c.calls };

    ghost faults = { λ c. c.faults };

    /// The answer that the clock was made with.
    fn now<R: Net<Listener = TcpListener, Stream = TcpStream> + SystemClock>(
        &mut self,
        _rt: &R,
    ) -> Option<u64>
        ensures answer { result ≡ self.old.answer }
        ensures same { self.new.answer ≡ self.old.answer }
        ensures given { self.new.given ≡ result }
        ensures calls { self.new.calls ≡ one_more self.old.calls }
        ensures later { self.old.faults ≤ self.new.faults }
        ensures count { self.new.faults ≡ faults_after_now result self.old.faults }
    {
        self.calls = self.calls.saturating_add(1);
        if self.answer.is_none() {
            self.faults = self.faults.saturating_add(1);
        }
        self.given = self.answer;
        self.answer
    }

    /// A clock of the same answer.
    fn share(&self) -> MemClock
        ensures { result ≡ record { answer = self.now.answer; given = None; calls = 0; faults = 0 } }
    {
        MemClock::new(self.answer)
    }
}

/// The clock of the system, which counts the calls that fail.
#[derive(Drop)]
pub struct HostClock {
    given: Option<u64>,
    calls: u64,
    faults: u64,
}

impl Model for HostClock {
    ghost use Rattle.authority_ask.specs.Clocks.{Reading};

    ghost Value = { Reading };

    ghost view = { λ c. record { given = c.given; calls = c.calls; faults = c.faults } };
}

impl HostClock {
    /// A clock that was not called and has not failed yet.
    pub fn new() -> HostClock
        ensures { result ≡ record { given = None; calls = 0; faults = 0 } }
    {
        HostClock {
            given: None,
            calls: 0,
            faults: 0,
        }
    }
}

impl Clock for HostClock {
    ghost given = { λ c. c.given };

    ghost calls = { λ c. c.calls };

    ghost faults = { λ c. c.faults };

    /// As of any clock.
    fn now<R: Net<Listener = TcpListener, Stream = TcpStream> + SystemClock>(
        &mut self,
        rt: &R,
    ) -> Option<u64> {
        self.calls = self.calls.saturating_add(1);
        self.given = system_seconds(rt);
        if self.given.is_none() {
            self.faults = self.faults.saturating_add(1);
        }
        self.given
    }

    /// As of any clock.
    fn share(&self) -> HostClock {
        HostClock::new()
    }
}

/// The seconds since the start of 1970 UTC that the system tells. None where it tells no time from then on.
fn system_seconds(rt: &impl SystemClock) -> Option<u64> {
    let now = SystemTime::now(rt).ok()?;
    Some(now.duration_since(UNIX_EPOCH).ok()?.as_secs())
}
