use super::{answers, ask, letter_of};
use authority_ask::{Ask, Clock, HostClock, HostPanel, MemClock, Panel};
use nx_io::{Reach, Shared};
use std::alloc::{AllocError, Global};
use std::net::{Net, TcpListener, TcpStream};
use std::process::Abort;
use std::rt::Clock as SystemClock;

// Each of the six forms, true and false when the time is 5, and statements of no such form: the answer, and that of a clock that is
// broken.
const STATEMENTS: &str = "TimeNow = 5 -> YD
TimeNow = 4 -> ND
TimeNow < 6 -> YD
TimeNow < 5 -> ND
TimeNow <= 5 -> YD
TimeNow <= 4 -> ND
5 = TimeNow -> YD
6 = TimeNow -> ND
4 < TimeNow -> YD
5 < TimeNow -> ND
5 <= TimeNow -> YD
6 <= TimeNow -> ND
Load < 1 -> NN
4 < 5 -> NN
TimeNow = TimeNow -> NN
\"TimeNow\" = 5 -> NN
TimeNow.x = 5 -> NN
TimeNow -> NN
TimeNow = 5 and true -> NN
ntp says TimeNow = 5 -> NN";

// Whether a panel whose clock stands at the time gives the answer of each statement that stands at the place.
fn gives<R>(rt: &R, alloc: Global, panel: &mut HostPanel<MemClock>, place: usize)
where
    R: Net<Listener = TcpListener, Stream = TcpStream> + SystemClock + Abort,
{
    assert!(rt; panel.reach(rt, 15, b"clock") == Reach::Ready);
    for row in STATEMENTS.lines() {
        let (text, due) = row.split_once(" -> ").unwrap_or(("", ""));
        let answer = letter_of(ask(rt, alloc, panel, 15, text.as_bytes()));
        assert!(rt; due.as_bytes().get(place) == Some(&answer), "{row}");
    }
}

fn with_clock<R>(rt: &R, alloc: Global, time: Option<u64>, place: usize) -> bool
where
    R: Net<Listener = TcpListener, Stream = TcpStream> + SystemClock + Abort,
{
    match HostPanel::new(alloc, MemClock::new(time)) {
        Ok(mut panel) => {
            gives(rt, alloc, &mut panel, place);
            drop(panel);
            true
        }
        Err(AllocError) => false,
    }
}

#[test]
fn a_clock_answers_the_six_forms(rt: HostRuntime) {
    assert!(rt; with_clock(&rt, rt.alloc(), Some(5), 0));
    assert!(rt; with_clock(&rt, rt.alloc(), None, 1));
}

// Three asks at port 0, and the answers that are due.
fn answers_three<R>(rt: &R, alloc: Global, panel: &mut HostPanel<MemClock>, due: [&str; 3]) -> bool
where
    R: Net<Listener = TcpListener, Stream = TcpStream> + SystemClock + Abort,
{
    let [below, same, other] = due;
    answers(rt, alloc, panel, (0, b"TimeNow < 9"), below)
        && answers(rt, alloc, panel, (0, b"TimeNow = 4"), same)
        && answers(rt, alloc, panel, (0, b"Load < 1"), other)
}

// Whether the panel and a share that was made before it is asked answer so.
fn both_answer<R>(rt: &R, alloc: Global, panel: &mut HostPanel<MemClock>, due: [&str; 3]) -> bool
where
    R: Net<Listener = TcpListener, Stream = TcpStream> + SystemClock + Abort,
{
    match panel.share() {
        Shared::Made(mut share) => {
            let both = answers_three(rt, alloc, panel, due)
                && answers_three(rt, alloc, &mut share, due);
            drop(share);
            both
        }
        Shared::Failed | Shared::NoMemory => false,
    }
}

fn shares_answer<R>(rt: &R, alloc: Global, time: Option<u64>, due: [&str; 3]) -> bool
where
    R: Net<Listener = TcpListener, Stream = TcpStream> + SystemClock + Abort,
{
    match HostPanel::new(alloc, MemClock::new(time)) {
        Ok(mut panel) => {
            let both = panel.reach(rt, 0, b"clock") == Reach::Ready
                && both_answer(rt, alloc, &mut panel, due);
            drop(panel);
            both
        }
        Err(AllocError) => false,
    }
}

#[test]
fn a_share_answers_by_the_same_addresses(rt: HostRuntime) {
    assert!(rt; shares_answer(&rt, rt.alloc(), Some(5), ["Y", "N", "N"]));
    assert!(rt; shares_answer(&rt, rt.alloc(), None, ["D", "D", "N"]));
}

fn has_bounds<R>(rt: &R, alloc: Global, panel: &mut HostPanel<MemClock>) -> bool
where
    R: Net<Listener = TcpListener, Stream = TcpStream> + SystemClock + Abort,
{
    panel.reach(rt, 16, b"clock") == Reach::Failed
        && panel.reach(rt, 3, &[b'a'; 65]) == Reach::Failed
        && ask(rt, alloc, panel, 16, b"TimeNow = 5") == Ask::Down
        && ask(rt, alloc, panel, 3, b"TimeNow = 5") == Ask::Down
}

fn new_has_bounds<R>(rt: &R, alloc: Global) -> bool
where
    R: Net<Listener = TcpListener, Stream = TcpStream> + SystemClock + Abort,
{
    match HostPanel::new(alloc, MemClock::new(Some(5))) {
        Ok(mut panel) => {
            let has_bounds = has_bounds(rt, alloc, &mut panel);
            drop(panel);
            has_bounds
        }
        Err(AllocError) => false,
    }
}

#[test]
fn ports_and_addresses_have_bounds(rt: HostRuntime) {
    assert!(rt; new_has_bounds(&rt, rt.alloc()));
}

// Whether the time lies between the start of 2020 and that of 2200.
fn is_now(time: Option<u64>) -> bool {
    matches!(time, Some(1_577_836_800..7_258_118_400))
}

fn tells_the_time<R>(rt: &R, alloc: Global, panel: &mut HostPanel<HostClock>) -> bool
where
    R: Net<Listener = TcpListener, Stream = TcpStream> + SystemClock + Abort,
{
    panel.reach(rt, 0, b"clock") == Reach::Ready
        && ask(rt, alloc, panel, 0, b"1577836800 < TimeNow") == Ask::Yes
        && ask(rt, alloc, panel, 0, b"TimeNow < 1577836800") == Ask::No
}

fn panel_tells_the_time<R>(rt: &R, alloc: Global, clock: HostClock) -> bool
where
    R: Net<Listener = TcpListener, Stream = TcpStream> + SystemClock + Abort,
{
    match HostPanel::new(alloc, clock) {
        Ok(mut panel) => {
            let tells = tells_the_time(rt, alloc, &mut panel);
            drop(panel);
            tells
        }
        Err(AllocError) => false,
    }
}

fn gives_the_time<R>(rt: &R, alloc: Global) -> bool
where
    R: Net<Listener = TcpListener, Stream = TcpStream> + SystemClock + Abort,
{
    let mut clock = HostClock::new();
    is_now(clock.now(rt)) && is_now(clock.share().now(rt)) && panel_tells_the_time(rt, alloc, clock)
}

#[test]
fn the_clock_of_the_system_gives_the_time(rt: HostRuntime) {
    assert!(rt; gives_the_time(&rt, rt.alloc()));
}
