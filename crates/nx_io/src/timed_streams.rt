// Streams of the system that are given up where their peer lets them wait for too long.
ghost use Rattle.std.specs.Prelude.{◌<◌, ◌≡◌};
ghost use Rattle.nx_io.specs.Duplexes.{new_stream};

use crate::duplex::{Duplex, StdDuplex};
use crate::streams::{Got, Put};
use crate::system_streams::SystemStream;
use std::io::{self, ErrorKind};
use std::marker::Model;
use std::rt::Clock;
use std::time::{Duration, Instant};

/// How many seconds a peer has until it is admitted, however its bytes are cut.
const TO_BE_ADMITTED: u64 = 10;

/// How long a stream may wait.
#[derive(Clone, Copy, Debug, PartialEq, Eq)]
enum Limit {
    /// As long as it takes.
    Endless,
    /// Until this moment, and then for so long in each call.
    Until { moment: Instant, then: Duration },
    /// For so long in each call, which the system is to be told.
    Each(Duration),
    /// As the system was told.
    Told,
    /// No more: a call has failed.
    Over,
}

/// A stream of the system with what it may wait. A call that waits longer is a fault, and so is every call after a fault. Contracts see
/// the stream.
#[derive(Drop)]
pub(crate) struct TimedStream<C: Clock + Copy> {
    stream: StdDuplex<SystemStream>,
    limit: Limit,
    clock: C,
}

impl<C: Clock + Copy> Model for TimedStream<C> {
    ghost use Rattle.nx_io.specs.Duplexes.{Stream};

    ghost Value = { Stream };

    ghost view = { λ t. t.stream };
}

impl<C: Clock + Copy> TimedStream<C> {
    /// A stream that waits as long as it takes.
    pub(crate) fn endless(clock: C, stream: SystemStream) -> TimedStream<C>
        ensures { result ≡ new_stream None None }
    {
        TimedStream::with(clock, stream, Limit::Endless)
    }

    /// A stream to a peer that has yet to be admitted, and may then let it wait for so many seconds in each call.
    pub(crate) fn patient(clock: C, stream: SystemStream, patience: u64) -> TimedStream<C>
        ensures { result ≡ new_stream None None }
    {
        let limit = first_limit(&clock, Duration::from_secs(patience));
        TimedStream::with(clock, stream, limit)
    }

    fn with(clock: C, stream: SystemStream, limit: Limit) -> TimedStream<C>
        ensures { result ≡ new_stream None None }
    {
        TimedStream {
            stream: StdDuplex::new(stream),
            limit,
            clock,
        }
    }

    /// Tells the system how long the next call may wait. An `Err` where it may wait no more.
    fn set_limit(&mut self) -> io::Result<()>
        ensures { self.new ≡ self.old }
    {
        let Some(stream) = self.stream.stream() else {
            return Ok(());
        };
        match self.limit {
            Limit::Endless | Limit::Told => Ok(()),
            Limit::Until { moment, .. } => stream.set_limit(left_until(&self.clock, moment)?),
            Limit::Each(patience) => {
                stream.set_limit(patience)?;
                self.limit = Limit::Told;
                Ok(())
            }
            Limit::Over => Err(io::Error::from(ErrorKind::TimedOut)),
        }
    }
}

impl<C: Clock + Copy> Duplex for TimedStream<C> {
    ghost given = { λ t. t.given };

    ghost sent = { λ t. t.sent };

    ghost shut = { λ t. t.shut };

    ghost admitted = { λ t. t.admitted };

    ghost faults = { λ t. t.faults };

    /// As of any stream.
    fn read(&mut self, into: &mut [u8]) -> Got {
        let got = match self.set_limit() {
            Ok(()) => self.stream.read(into),
            Err(_) => {
                self.stream.fail();
                Got::Failed
            }
        };
        if got == Got::Failed {
            self.limit = Limit::Over;
        }
        got
    }

    /// As of any stream.
    fn write(&mut self, piece: &[u8]) -> Put {
        let put = match self.set_limit() {
            Ok(()) => self.stream.write(piece),
            Err(_) => {
                self.stream.fail();
                Put::Failed
            }
        };
        if put == Put::Failed {
            self.limit = Limit::Over;
        }
        put
    }

    /// As of any stream.
    fn admit(&mut self) {
        self.stream.admit();
        if let Limit::Until { then, .. } = self.limit {
            self.limit = Limit::Each(then);
        }
    }

    /// As of any stream.
    fn shut(&mut self) {
        self.stream.shut();
    }

    fn is_shut(&self) -> bool {
        self.stream.is_shut()
    }
}

/// The limit of a stream to a peer that has yet to be admitted. Where the clock tells no time it may not wait.
fn first_limit(clock: &impl Clock, then: Duration) -> Limit {
    let Ok(now) = Instant::now(clock) else {
        return Limit::Over;
    };
    match now.checked_add(Duration::from_secs(TO_BE_ADMITTED)) {
        Some(moment) => Limit::Until { moment, then },
        None => Limit::Over,
    }
}

/// How long it is until a moment. An `Err` where it has come.
fn left_until(clock: &impl Clock, moment: Instant) -> io::Result<Duration> {
    let left = moment.saturating_duration_since(Instant::now(clock)?);
    if left == Duration::ZERO {
        return Err(io::Error::from(ErrorKind::TimedOut));
    }
    Ok(left)
}
