// A service whose sink holds the line of a change, in its write or in its sync. Calls of another session that find no kept verdict are answered meanwhile, at
// the point before the change; a second change waits; and both are made once the sink goes on.
//
// No clause says that the journal's lock is free while a line goes out. Were it held, the calls would wait, and the sink, which gives up after a time, would
// fail: then the change is told not to be recorded, and the row is wrong.
use crate::days::{Day, Shown, sink_of, try_day_over};
use nx_io::{Gate, MemSink, Place, Put, Reach, Sink};
use std::alloc::{AllocError, AllocGlobal, Global};
use std::fs::Files;
use std::net::{Net, TcpListener, TcpStream};
use std::process::Abort;
use std::rt::Clock;
use std::sync::Wait;
use std::sync::atomic::{AtomicU64, Ordering};
use std::thread;
use std::thread::Threads;
use std::time::Duration;

// How often a number is looked at, with a millisecond between two looks.
const LOOKS: u64 = 15_000;

// The replies that the second session gets while the sink holds the line: those to its hello and to its two calls.
const MEANWHILE: u64 = 3;

// For how many milliseconds the sink goes on to hold the line behind these, so that a change which did not wait would be answered.
const LONGER: u64 = 200;

const FIRST_SESSION: u64 = 2;

const SECOND_SESSION: u64 = 3;

// Whether a number is as great as this, once it is; false where it was not for so many looks.
fn has_come(clock: &impl Clock, number: &AtomicU64, least: u64) -> bool {
    for _ in 0..LOOKS {
        if number.load(Ordering::SeqCst) >= least {
            return true;
        }
        thread::sleep(clock, Duration::from_millis(1));
    }
    false
}

// What the sink and the sessions tell each other. The first session makes a change, whose line the sink holds. The second one goes on behind its hello only
// once the sink holds the line, calls twice, and makes a change too.
#[derive(Drop)]
struct Signals {
    // How many replies each session got, and how often the second one looked for a kept verdict and found none.
    first: AtomicU64,
    second: AtomicU64,
    missed: AtomicU64,
    // Whether the sink is to hold the next call, and whether it holds one.
    due: AtomicU64,
    held: AtomicU64,
    // How many replies the second session had when the sink went on, and how often somebody gave up.
    before: AtomicU64,
    given_up: AtomicU64,
}

impl Signals {
    fn new() -> Signals {
        Signals {
            first: AtomicU64::new(0),
            second: AtomicU64::new(0),
            missed: AtomicU64::new(0),
            due: AtomicU64::new(0),
            held: AtomicU64::new(0),
            before: AtomicU64::new(0),
            given_up: AtomicU64::new(0),
        }
    }

    // Waits until a number is as great as this. Whether it came to that.
    fn wait(&self, clock: &impl Clock, number: &AtomicU64, least: u64) -> bool {
        let came = has_come(clock, number, least);
        if !came {
            self.given_up.fetch_add(1, Ordering::SeqCst);
        }
        came
    }

    // Holds the call that is due until the second session was answered so often, and for some time more. Whether it was.
    fn hold(&self, clock: &impl Clock) -> bool {
        if self.due.swap(0, Ordering::SeqCst) == 0 {
            return true;
        }
        self.held.store(1, Ordering::SeqCst);
        let answered = self.wait(clock, &self.second, MEANWHILE);
        thread::sleep(clock, Duration::from_millis(LONGER));
        self.before
            .store(self.second.load(Ordering::SeqCst), Ordering::SeqCst);
        answered
    }
}

impl Gate for Signals {
    fn at<R: Net<Listener = TcpListener, Stream = TcpStream> + Clock>(&self, rt: &R, place: Place) {
        match place {
            Place::Answered { session, .. } if session == FIRST_SESSION => {
                if self.first.fetch_add(1, Ordering::SeqCst) == 0 {
                    self.due.store(1, Ordering::SeqCst);
                }
            }
            Place::Answered { session, .. } if session == SECOND_SESSION => {
                if self.second.fetch_add(1, Ordering::SeqCst) == 0 {
                    self.wait(rt, &self.held, 1);
                }
            }
            Place::Missed { session, .. } if session == SECOND_SESSION => {
                self.missed.fetch_add(1, Ordering::SeqCst);
            }
            _ => {}
        }
    }
}

// A call of a sink.
#[derive(Clone, Copy, PartialEq, Eq)]
enum Held {
    Write,
    Sync,
}

// A sink in memory that holds a write or a sync that is due, and fails it where it gives up.
#[derive(Drop)]
struct HoldingSink<'a, C: Clock + Copy> {
    sink: MemSink,
    faults: u64,
    held: Held,
    signals: &'a Signals,
    clock: C,
}

impl<'a, C: Clock + Copy> HoldingSink<'a, C> {
    // Whether a call of this kind may go on, once it may.
    fn goes_on(&self, call: Held) -> bool {
        self.held != call || self.signals.hold(&self.clock)
    }
}

impl<'a, C: Clock + Copy> Sink for HoldingSink<'a, C> {
    ghost sent = { λ s. s.sink.sent };

    ghost synced = { λ s. s.sink.synced };

    ghost faults = { λ s. s.faults };

    fn write(&mut self, piece: &[u8]) -> Put {
        let put = if self.goes_on(Held::Write) {
            self.sink.write(piece)
        } else {
            Put::Failed
        };
        if put == Put::Failed {
            self.faults = self.faults.saturating_add(1);
        }
        put
    }

    fn sync(&mut self) -> Reach {
        let reach = if self.goes_on(Held::Sync) {
            self.sink.sync()
        } else {
            Reach::Failed
        };
        if reach == Reach::Failed {
            self.faults = self.faults.saturating_add(1);
        }
        reach
    }
}

impl<'a, C: Clock + Copy> Shown for HoldingSink<'a, C> {
    fn shown(&self) -> &[u8] {
        self.sink.sent()
    }
}

// Two workers with a session each. An authority is asked at each call, so no verdict is kept: the first call makes the case known, and the second looks for
// a verdict and finds none.
const HELD: &str = "words=serve mem 2 1
policy=nexus 2|principal alice pa|principal bob pb|authority 1 mem|1 alice object f|1 alice bind alice.rota 1|1 alice goal read f : alice.rota says duty|\
    1 bob proof read f : proof 2 ; 1 ask : alice.rota says duty ; end|end|
answers=yy
room=4000
piece=1000
talks=hello alice pa|object g
others=hello bob pb|call read f 0|call read f 0|object h
status=0
told=welcome 2 4|done 5 1|closed|welcome 3 4|allowed 4 0 0|allowed 4 0 0|done 6 2|closed|
written=nexus 2|principal alice pa|principal bob pb|authority 1 mem|1 alice object f|1 alice bind alice.rota 1|1 alice goal read f : alice.rota says duty|\
    1 bob proof read f : proof 2 ; 1 ask : alice.rota says duty ; end|2 alice object g|3 bob object h|end|";

const DAY: Day<'static> = Day {
    own: HELD,
    other: "",
};

// A service whose sink holds such a call comes to what it should. Nobody gave up; and when the sink went on, the second session had been
// answered all that it asked before its change, and its change had not been answered.
fn try_holding<
    R: Net<Listener = TcpListener, Stream = TcpStream>
        + Files
        + AllocGlobal
        + Clock
        + Wait
        + Threads
        + Sync
        + Abort,
    C: Clock + Copy + Send + Drop,
>(rt: &R, alloc: Global, held: Held, clock: C) -> Result<(), AllocError> {
    let signals = Signals::new();
    let sink = HoldingSink {
        sink: sink_of(alloc, DAY)?,
        faults: 0,
        held,
        signals: &signals,
        clock,
    };
    try_day_over(rt, alloc, DAY, &signals, sink)?;
    assert_eq!(rt; signals.given_up.load(Ordering::SeqCst), 0);
    assert_eq!(rt; signals.before.load(Ordering::SeqCst), MEANWHILE);
    assert_eq!(rt; signals.missed.load(Ordering::SeqCst), 1);
    Ok(())
}

#[test]
fn calls_are_answered_while_a_line_is_written(rt: HostRuntime) -> Result<(), AllocError> {
    try_holding(&rt, rt.alloc(), Held::Write, rt)
}

#[test]
fn calls_are_answered_while_a_line_is_synced(rt: HostRuntime) -> Result<(), AllocError> {
    try_holding(&rt, rt.alloc(), Held::Sync, rt)
}
