// Doors in memory.
ghost use Rattle.std.specs.Prelude.{IfOk};
ghost use Rattle.nx_io.specs.MemoryDoors.{IsFreshPlan, IsFreshWire};

use super::crosses;
use crate::texts::{is_told, text_of};
use nx_io::{Dial, Door, DoorPlan, Gate, MemDoor, MemLink, Next, OpenGate, Place, Reach, Shared};
use std::alloc::{AllocError, Global};
use std::fs::Files;
use std::net::{Net, TcpListener, TcpStream};
use std::process::Abort;
use std::rt::Clock;

// What a door answers to `next`: the first byte of a link and its place; no more; a failure.
fn answer<R: Net<Listener = TcpListener, Stream = TcpStream> + Clock>(
    rt: &R,
    alloc: Global,
    door: &mut MemDoor,
) -> Result<String, AllocError> {
    match door.next(rt) {
        Next::Link(link) => {
            let told = told_of_link(alloc, &link);
            drop(link);
            told
        }
        Next::NoMore => String::from_str(alloc, "NoMore"),
        Next::Failed => String::from_str(alloc, "Failed"),
    }
}

fn told_of_link(alloc: Global, link: &MemLink) -> Result<String, AllocError> {
    let first = text_of(link.left().get(..1).unwrap_or(b""));
    format!(in alloc; "{first}{}", link.place())
}

fn link(alloc: Global, left: &[u8]) -> Result<MemLink, AllocError>
    ensures { IfOk result IsFreshWire }
{
    MemLink::new(alloc, left, 8, 8, &[], &[])
}

fn plan(alloc: Global, first: &[u8], second: &[u8], fails: &[u64]) -> Result<DoorPlan, AllocError>
    ensures { IfOk result IsFreshPlan }
{
    let mut plan = DoorPlan {
        links: Vec::new(alloc),
        fails: Vec::from_slice(alloc, fails)?,
    };
    plan.links.push(link(alloc, first)?)?;
    plan.links.push(link(alloc, second)?)?;
    Ok(plan)
}

// The third call of the door fails, and the first one of its second share.
fn door(alloc: Global) -> Result<MemDoor, AllocError> {
    let first = plan(alloc, b"a", b"b", &[])?;
    let second = plan(alloc, b"c", b"d", &[1])?;
    let plans = Vec::from_array(alloc, [first, second])?;
    MemDoor::new(alloc, plans, Some(link(alloc, b"e")?), &[3])
}

// What a share of a door answers to three calls of `next`.
fn share_answers<R: Net<Listener = TcpListener, Stream = TcpStream> + Clock>(
    rt: &R,
    alloc: Global,
    door: &mut MemDoor,
) -> Result<String, AllocError> {
    match door.share() {
        Shared::Made(mut share) => {
            let answers = three_answers(rt, alloc, &mut share);
            drop(share);
            answers
        }
        Shared::Failed => String::from_str(alloc, "Failed"),
        Shared::NoMemory => Err(AllocError),
    }
}

fn three_answers<R: Net<Listener = TcpListener, Stream = TcpStream> + Clock>(
    rt: &R,
    alloc: Global,
    share: &mut MemDoor,
) -> Result<String, AllocError> {
    let first = answer(rt, alloc, share)?;
    let second = answer(rt, alloc, share)?;
    let third = answer(rt, alloc, share)?;
    format!(in alloc; "{first} {second} {third}")
}

fn listens<R: Net<Listener = TcpListener, Stream = TcpStream> + Clock + Files>(
    rt: &R,
    door: &mut MemDoor,
) -> bool {
    door.listen(rt, b"mem", 300) == Reach::Ready
}

fn dials<R: Net<Listener = TcpListener, Stream = TcpStream> + Clock>(
    rt: &R,
    door: &mut MemDoor,
) -> bool {
    let dial = door.dial(rt, b"peer");
    let is_link = matches!(&dial, Dial::Link(_));
    drop(dial);
    is_link
}

// Whether the shares answer so, one after the other.
fn shares_answer<R: Net<Listener = TcpListener, Stream = TcpStream> + Clock>(
    rt: &R,
    alloc: Global,
    door: &mut MemDoor,
) -> bool {
    for wanted in SHARES.lines() {
        if !is_told(share_answers(rt, alloc, door), wanted) {
            return false;
        }
    }
    true
}

fn shares_in_turn<R>(rt: &R, alloc: Global, door: &mut MemDoor)
where
    R: Net<Listener = TcpListener, Stream = TcpStream> + Clock + Files + Abort,
{
    crosses(door);
    assert!(rt; listens(rt, door) && shares_answer(rt, alloc, door));
    assert!(rt; is_told(answer(rt, alloc, door), "NoMore"));

    // One dial gives the link.
    assert!(rt; dials(rt, door) && !dials(rt, door));
    assert!(rt; door.gave() == 0 && door.faults() == 2);
}

fn shares_of_a_door<R>(rt: &R, alloc: Global) -> Result<(), AllocError>
where
    R: Net<Listener = TcpListener, Stream = TcpStream> + Clock + Files + Abort,
{
    let mut door = door(alloc)?;
    shares_in_turn(rt, alloc, &mut door);
    drop(door);
    let place = Place::Missed {
        session: 1,
        principal: 0,
    };
    OpenGate.at(rt, place);
    Ok(())
}

// What four shares answer, one after the other.
const SHARES: &str = "a1 b2 NoMore
Failed
Failed c1 d2
NoMore NoMore NoMore";

#[test]
fn shares_have_the_links_of_their_plans(rt: HostRuntime) -> Result<(), AllocError> {
    shares_of_a_door(&rt, rt.alloc())
}
