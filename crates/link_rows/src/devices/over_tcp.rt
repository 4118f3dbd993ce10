// Links and doors over sockets of the system: over TCP, on the loopback, and over local ones, in the folder of the test. One thread is
// enough: what is sent waits in the system until it is taken.
ghost use Rattle.std.specs.Prelude.{◌≡◌, false};

use super::crosses;
use nx_io::{Dial, Door, Got, Link, Next, Reach, Shared, SocketDoor, SocketLink, send_whole};
use std::alloc::{AllocError, Global};
use std::fs::{self, Files};
use std::net::{Net, TcpListener, TcpStream};
use std::process::Abort;
use std::rt::Clock;

// More than a link gathers.
const LONG: usize = 5000;

// How many seconds a door lets its links wait.
const PATIENCE: u64 = 300;

// Lets the door listen at the first of some ports that is free, and gives its address.
fn listening<R: Net<Listener = TcpListener, Stream = TcpStream> + Clock + Copy + Files>(
    rt: &R,
    alloc: Global,
    door: &mut SocketDoor<R>,
) -> Result<Option<String>, AllocError> {
    for port in 43_117..43_217u32 {
        let address = format!(in alloc; "127.0.0.1:{port}")?;
        if door.listen(rt, address.as_bytes(), PATIENCE) == Reach::Ready {
            return Ok(Some(address));
        }
    }
    Ok(None)
}

// Both ends of a connection: the one that was dialed, and the one that a share of the door gave.
fn ends<R: Net<Listener = TcpListener, Stream = TcpStream> + Clock + Copy>(
    rt: &R,
    door: &mut SocketDoor<R>,
    address: &[u8],
) -> Option<(SocketLink<R>, SocketLink<R>)> {
    match door.share() {
        Shared::Made(mut share) => {
            let ends = ends_by(rt, door, &mut share, address);
            drop(share);
            ends
        }
        Shared::Failed | Shared::NoMemory => None,
    }
}

fn ends_by<R: Net<Listener = TcpListener, Stream = TcpStream> + Clock + Copy>(
    rt: &R,
    door: &mut SocketDoor<R>,
    share: &mut SocketDoor<R>,
    address: &[u8],
) -> Option<(SocketLink<R>, SocketLink<R>)> {
    match door.dial(rt, address) {
        Dial::Link(dialed) => with_given(dialed, share.next(rt)),
        Dial::Failed => None,
    }
}

fn with_given<C: Clock + Copy>(
    dialed: SocketLink<C>,
    given: Next<SocketLink<C>>,
) -> Option<(SocketLink<C>, SocketLink<C>)> {
    match given {
        Next::Link(given) => Some((dialed, given)),
        Next::NoMore | Next::Failed => {
            drop(dialed);
            None
        }
    }
}

// Takes so many bytes, and says whether all were this one.
fn takes<C: Clock + Copy>(link: &mut SocketLink<C>, count: usize, byte: u8) -> bool
    requires { link.old.stream.shut ≡ false }
{
    let mut buffer = [0; LONG];
    let mut taken = 0;
    for _ in 0..count {
        if taken >= count {
            break;
        }
        match link.take(&mut buffer) {
            Got::Bytes(more) if buffer[..more].iter().all(|b| *b == byte) => {
                taken = taken.saturating_add(more);
            }
            _ => return false,
        }
    }
    taken == count
}

// What an end of a connection does. An end that was closed does nothing more.
fn does<C: Clock + Copy>(link: &mut SocketLink<C>, step: &str) -> bool {
    if link.is_closed() {
        return step == "is closed";
    }
    match step {
        // Sends this byte `LONG` times.
        "send a" => sends(link, b'a'),
        "send b" => sends(link, b'b'),
        // Takes so many of this byte.
        "take a" => takes(link, 4096, b'a'),
        "take b" => takes(link, 4096, b'b'),
        "take the rest" => takes(link, LONG - 4096, b'a'),
        "take the last" => takes(link, LONG - 4096, b'b'),
        // Its peer is admitted.
        "admit" => admits(link),
        "end" => link.take(&mut [0; 8]) == Got::End,
        // Sends until it fails, the other end being closed.
        "lose" => loses(link),
        "close" => closes(link),
        _ => false,
    }
}

fn sends<C: Clock + Copy>(link: &mut SocketLink<C>, byte: u8) -> bool
    requires { link.old.stream.shut ≡ false }
{
    send_whole(link, &[byte; LONG]) == Reach::Ready
}

fn admits<C: Clock + Copy>(link: &mut SocketLink<C>) -> bool {
    link.admit();
    true
}

fn closes<C: Clock + Copy>(link: &mut SocketLink<C>) -> bool {
    link.close();
    true
}

fn loses<C: Clock + Copy>(link: &mut SocketLink<C>) -> bool
    requires { link.old.stream.shut ≡ false }
{
    for _ in 0..64 {
        if send_whole(link, &[b'c'; LONG]) == Reach::Failed {
            return true;
        }
    }
    false
}

// What the end that was dialed does, and the other one. The last bytes have waited in the link, and go out when it is closed.
const STEPS: &str = "dialed send a
given admit
given take a
given send b
dialed take b
dialed close
given take the rest
given end
dialed is closed
given lose
given close";

// Over a local socket nothing may be sent to an end that is closed, so all is taken before.
const LOCAL_STEPS: &str = "dialed send a
given admit
given take a
given send b
dialed take b
given take the rest
dialed take the last
dialed close
given end
dialed is closed
given lose
given close";

fn all_done<R: Clock + Copy + Send + Abort>(
    rt: &R,
    steps: &str,
    dialed: &mut SocketLink<R>,
    given: &mut SocketLink<R>,
) {
    crosses(dialed);
    for line in steps.lines() {
        let (end, step) = line.split_once(" ").unwrap_or(("", ""));
        let done = if end == "dialed" {
            does(dialed, step)
        } else {
            does(given, step)
        };
        assert!(rt; done, "{line}");
    }
    assert!(rt; dialed.faults() == 0 && given.faults() == 2);
}

fn connected<R>(rt: &R, door: &mut SocketDoor<R>, address: &[u8], steps: &str)
where
    R: Net<Listener = TcpListener, Stream = TcpStream> + Clock + Copy + Send + Abort,
{
    crosses(door);
    let are_done = match ends(rt, door, address) {
        Some((mut dialed, mut given)) => {
            all_done(rt, steps, &mut dialed, &mut given);
            drop(dialed);
            drop(given);
            true
        }
        None => false,
    };
    assert!(rt; are_done);
}

fn go_both_ways<R>(rt: &R, alloc: Global)
where
    R: Net<Listener = TcpListener, Stream = TcpStream> + Clock + Copy + Send + Files + Abort,
{
    let mut door = SocketDoor::new(alloc, *rt);
    let does_listen = match listening(rt, alloc, &mut door) {
        Ok(Some(address)) => {
            connected(rt, &mut door, address.as_bytes(), STEPS);
            true
        }
        _ => false,
    };
    drop(door);
    assert!(rt; does_listen);
}

#[test]
fn bytes_go_both_ways_over_tcp(rt: HostRuntime) {
    go_both_ways(&rt, rt.alloc());
}

fn gives_nothing<R: Net<Listener = TcpListener, Stream = TcpStream> + Clock + Copy>(
    rt: &R,
    door: &mut SocketDoor<R>,
) -> bool {
    let next = door.next(rt);
    let fails = matches!(&next, Next::Failed);
    drop(next);
    fails
}

fn reaches_nobody<R: Net<Listener = TcpListener, Stream = TcpStream> + Clock + Copy>(
    rt: &R,
    door: &mut SocketDoor<R>,
) -> bool {
    reaches_nobody_at(rt, door, b"127.0.0.1:1")
}

fn reaches_nobody_at<R: Net<Listener = TcpListener, Stream = TcpStream> + Clock + Copy>(
    rt: &R,
    door: &mut SocketDoor<R>,
    address: &[u8],
) -> bool {
    let dial = door.dial(rt, address);
    let fails = matches!(&dial, Dial::Failed);
    drop(dial);
    fails
}

// Each call is counted as a fault.
fn fails_at_each_call<R: Net<Listener = TcpListener, Stream = TcpStream> + Clock + Copy + Files>(
    rt: &R,
    alloc: Global,
) -> bool {
    let mut door = SocketDoor::new(alloc, *rt);
    let fails = gives_nothing(rt, &mut door)
        && reaches_nobody(rt, &mut door)
        && door.listen(rt, b"no address", PATIENCE) == Reach::Failed
        && door.faults() == 3;
    drop(door);
    fails
}

#[test]
fn a_door_fails_where_nobody_is(rt: HostRuntime) {
    assert!(rt; fails_at_each_call(&rt, rt.alloc()));
}

// Whether the next link of a door ends at once.
fn gives_one_that_ends<R: Net<Listener = TcpListener, Stream = TcpStream> + Clock + Copy>(
    rt: &R,
    door: &mut SocketDoor<R>,
) -> bool {
    match door.next(rt) {
        Next::Link(link) => {
            let mut link = link;
            let ends = does(&mut link, "end");
            drop(link);
            ends
        }
        Next::NoMore | Next::Failed => false,
    }
}

// A door at a path, and another one. No other may listen there while the first does: it finds out by a connection, which the first
// one gives. What that leaves behind is replaced.
fn one_door_at_a_path<R>(rt: &R, alloc: Global)
where
    R: Net<Listener = TcpListener, Stream = TcpStream> + Clock + Copy + Send + Files + Abort,
{
    let address = b"unix:door";
    let mut first = SocketDoor::new(alloc, *rt);
    let mut other = SocketDoor::new(alloc, *rt);
    assert!(rt; first.listen(rt, address, PATIENCE) == Reach::Ready);
    connected(rt, &mut first, address, LOCAL_STEPS);
    assert!(rt; other.listen(rt, address, PATIENCE) == Reach::Failed && other.faults() == 1);
    assert!(rt; gives_one_that_ends(rt, &mut first));
    connected(rt, &mut first, address, LOCAL_STEPS);
    drop(first);
    assert!(rt; reaches_nobody_at(rt, &mut other, address));
    assert!(rt; other.listen(rt, address, PATIENCE) == Reach::Ready && other.faults() == 2);
    connected(rt, &mut other, address, LOCAL_STEPS);
    drop(other);
}

#[test]
fn one_door_listens_at_a_path(rt: HostRuntime) {
    one_door_at_a_path(&rt, rt.alloc());
}

// What is no socket stays as it is, and nobody listens there.
fn is_left_alone<R>(rt: &R, alloc: Global) -> bool
where
    R: Net<Listener = TcpListener, Stream = TcpStream> + Clock + Copy + Files,
{
    let mut door = SocketDoor::new(alloc, *rt);
    let fails = fs::write(rt, "file", "some bytes").is_ok()
        && door.listen(rt, b"unix:file", PATIENCE) == Reach::Failed
        && door.listen(rt, b"unix:no folder/door", PATIENCE) == Reach::Failed
        && door.listen(rt, b"unix:", PATIENCE) == Reach::Failed
        && door.faults() == 3
        && has_length(rt, "file", 10);
    drop(door);
    fails
}

fn has_length<R: Files>(rt: &R, path: &str, length: u64) -> bool {
    match fs::metadata(rt, path) {
        Ok(found) => found.is_file() && found.len() == length,
        Err(_) => false,
    }
}

#[test]
fn a_file_that_is_no_socket_is_left_alone(rt: HostRuntime) {
    assert!(rt; is_left_alone(&rt, rt.alloc()));
}
