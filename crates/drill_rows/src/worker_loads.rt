//! The frames of workers, written by hand after docs/FORMATS.md, and the lines of loads. Those of many calls were worked out by a
//! program written apart from this one.
use nexus_drill::{drill_frames, drill_line, drill_totals};
use std::alloc::{AllocError, Global};

// The requests of worker 0 that are not drawn.
const FIRST: &[u8] = b"\0\0\0\x09\x01\0\x02p0\0\x02s0\0\0\0\x05\x05\0\x02o0\
    \0\0\0\x17\x06\0\x04read\0\x02o0\0\x0ap0 says ok\0\0\0\x18\x06\0\x05write\0\x02o0\0\x0ap0 says ok\
    \0\0\0\x31\x08\0\x04read\0\x02o0\0\x24proof 1 ; 1 label : p0 says ok ; end\
    \0\0\0\x32\x08\0\x05write\0\x02o0\0\x24proof 1 ; 1 label : p0 says ok ; end\
    \0\0\0\x09\x02\0\x02p0\0\x02ok";

const READ: &[u8] = b"\0\0\0\x13\x0c\0\x04read\0\x02o0\0\0\0\0\0\0\0\0";

const NOTE: &[u8] = b"\0\0\0\x0b\x02\0\x02p0\0\x04note";

const CLEAR: &[u8] = b"\0\0\0\x0b\x07\0\x04read\0\x02o0";

const SET: &[u8] = b"\0\0\0\x17\x06\0\x04read\0\x02o0\0\x0ap0 says ok";

// Whether these frames, one after another, stand in the bytes from this place on.
fn stand(bytes: &[u8], from: usize, frames: &[&[u8]]) -> bool {
    let mut place = from;
    for frame in frames {
        if !bytes.iter().skip(place).take(frame.len()).eq(frame.iter()) {
            return false;
        }
        place = place.saturating_add(frame.len());
    }
    true
}

#[test]
fn one_call_of_worker_0(rt: HostRuntime) -> Result<(), AllocError> {
    let frames = drill_frames(rt.alloc(), 0, 0, 1)?;
    assert_eq!(rt; frames.len(), FIRST.len() + READ.len());
    assert!(rt; stand(frames.as_slice(), 0, &[FIRST, READ]));
    Ok(())
}

#[test]
fn a_goal_is_cleared_and_set_again(rt: HostRuntime) -> Result<(), AllocError> {
    let frames = drill_frames(rt.alloc(), 7, 0, 40)?;
    let bytes = frames.as_slice();
    assert_eq!(rt; bytes.len(), 1085);
    let write = b"\0\0\0\x14\x0c\0\x05write\0\x02o0\0\0\0\0\x7eC(\xbc";
    assert!(rt; stand(bytes, 0, &[FIRST, write, READ]));
    // The seventh draw is the first of a note; the thirteenth clears the goal, and the next sets it.
    assert!(rt;
        stand(
            bytes,
            339,
            &[NOTE, NOTE, READ, READ, READ, READ, CLEAR, SET]
        )
    );
    assert!(rt; stand(bytes, 1085 - SET.len() - NOTE.len(), &[SET, NOTE]));
    Ok(())
}

#[test]
fn a_worker_draws_from_its_own_number(rt: HostRuntime) -> Result<(), AllocError> {
    let frames = drill_frames(rt.alloc(), 0, 63, 1)?;
    let bytes = frames.as_slice();
    let greeting = b"\0\0\0\x0b\x01\0\x03p63\0\x03s63";
    let last = b"\0\0\0\x15\x0c\0\x05write\0\x03o63\0\0\0\0\xd00\x92\xa4";
    assert!(rt; bytes.starts_with(greeting));
    assert!(rt; bytes.ends_with(last));
    Ok(())
}

#[test]
fn the_numbers_are_added_with_wrapping(rt: HostRuntime) -> Result<(), AllocError> {
    let frames = drill_frames(rt.alloc(), 18_446_744_073_709_551_615, 1, 1)?;
    let last = b"\0\0\0\x13\x0c\0\x04read\0\x02o1\0\0\0\0\0\0\0\0";
    assert!(rt; frames.as_slice().ends_with(last));
    Ok(())
}

// Whether the line of a load is this one.
fn is_line(
    alloc: Global,
    number: u64,
    workers: u64,
    calls: u64,
    line: &[u8],
) -> Result<bool, AllocError> {
    if workers > 64 || calls > 4000 {
        return Ok(false);
    }
    let totals = drill_totals(number, workers, calls);
    let text = drill_line(alloc, workers, calls, &totals)?;
    Ok(text.as_slice() == line)
}

#[test]
fn lines_of_loads(rt: HostRuntime) -> Result<(), AllocError> {
    let alloc = rt.alloc();
    let one = b"workers 1 requests 8 allowed 1 denied 0 length 6\n";
    assert!(rt; is_line(alloc, 0, 1, 1, one)?);
    let two = b"workers 2 requests 94 allowed 41 denied 17 length 34\n";
    assert!(rt; is_line(alloc, 7, 2, 40, two)?);
    let most = b"workers 64 requests 256448 allowed 144241 denied 47837 length 64306\n";
    assert!(rt; is_line(alloc, 7, 64, 4000, most)?);
    let wrapped = b"workers 3 requests 36 allowed 7 denied 3 length 23\n";
    assert!(rt; is_line(alloc, 18_446_744_073_709_551_615, 3, 5, wrapped)?);
    Ok(())
}
