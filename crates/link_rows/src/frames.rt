// Frames over links in memory, which give them in pieces of 1, 2, 3 and all bytes. The bytes of each table are written by
// hand, after docs/FORMATS.md, "Frames".
ghost use Rattle.std.specs.Prelude.{◌≡◌, ◌≤◌, false};

use crate::tables::hold;
use crate::texts::number;
use nx_io::{Bytes, MemLink};
use session_wire::{
    FrameReader, Framed, ReplyRead, Request, read_reply, write_reply, write_request,
};
use std::alloc::{AllocError, Global};

const PIECES: [usize; 4] = [1, 2, 3, 40_000];

fn digit(byte: u8) -> u8
    ensures { result ≤ 15 }
{
    match byte {
        b'0'..=b'9' => byte - b'0',
        b'a'..=b'f' => byte - b'a' + 10,
        _ => 0,
    }
}

// The bytes that a text spells: the frame of Unbind with a text of so many letters, or two digits each.
fn bytes_of(alloc: Global, text: &str) -> Result<Vec<u8>, AllocError> {
    match text.strip_prefix("unbind ") {
        Some(letters) => unbind_frame(alloc, letters.parse::<u16>().unwrap_or(0)),
        None => spelled(alloc, text),
    }
}

fn spelled(alloc: Global, text: &str) -> Result<Vec<u8>, AllocError> {
    let mut bytes = Vec::new(alloc);
    let mut high = None;
    for byte in text.as_bytes() {
        high = match high {
            None => Some(digit(*byte)),
            Some(high) => {
                bytes.push(high.wrapping_mul(16) | digit(*byte))?;
                None
            }
        };
    }
    Ok(bytes)
}

// How many requests are read of these bytes, the first three at most, what is told then, and how many bytes the link has left.
fn read_all(
    alloc: Global,
    bytes: &[u8],
    piece: usize,
    fails: &[u64],
) -> Result<String, AllocError> {
    match MemLink::new(alloc, bytes, 0, piece.max(1), fails, &[]) {
        Ok(mut link) => {
            let told = read_link(alloc, &mut link);
            drop(link);
            told
        }
        Err(AllocError) => Err(AllocError),
    }
}

fn read_link(alloc: Global, link: &mut MemLink) -> Result<String, AllocError>
    requires { link.old.closed ≡ false }
{
    let mut reader = FrameReader::new(alloc)?;
    let mut count = 0u64;
    for _ in 0..3u64 {
        let framed = reader.next(link);
        if !matches!(&framed, Framed::Request(_)) {
            drop(reader);
            let told = told_last(alloc, count, &framed, link.left().len());
            drop(framed);
            return told;
        }
        drop(framed);
        count = count.saturating_add(1);
    }
    drop(reader);
    format!(in alloc; "3 More {}", link.left().len())
}

// What is told where no request was read.
fn told_last(
    alloc: Global,
    count: u64,
    framed: &Framed,
    left: usize,
) -> Result<String, AllocError> {
    let last = match framed {
        Framed::Bad { fault, place } => {
            return format!(in alloc; "{count} Bad({fault:?}, {place}) {left}");
        }
        Framed::Request(_) => "More",
        Framed::End => "End",
        Framed::Torn => "Torn",
        Framed::ReadFault => "ReadFault",
        Framed::Memory => "Memory",
    };
    format!(in alloc; "{count} {last} {left}")
}

// Bytes, and how many requests are read of them, what is told then, and how many bytes are left. Some requests; lengths and
// kinds; names that run past the payload, are empty, reserved, none or too long; secrets that begin at the payload's end, are
// short, empty or none; numbers that are short; bytes behind the last field; the same behind a whole frame.
const STREAMS: &str = " -> 0 End 0
0000000a010003626f6200027077000000120c0004726561640001660000000000000007 -> 2 End 0
000000 -> 0 Torn 0
00008401 -> 0 Bad(TooLong, 0) 0
ff0000000505 -> 0 Bad(TooLong, 0) 2
0000000005 -> 0 Bad(BadKind, 4) 1
000000010005 -> 0 Bad(BadKind, 4) 1
000000030e616205 -> 0 Bad(BadKind, 4) 1
000000030e61 -> 0 Torn 0
000000030d616205 -> 0 Bad(BadField, 5) 1
0000000141 -> 0 Bad(BadKind, 4) 0
000000090e00000000000003e8 -> 0 Bad(BadKind, 4) 0
00000005050003616200 -> 0 Bad(BadField, 5) 1
00000003050000 -> 0 Bad(BadField, 5) 0
0000000705000473617973 -> 0 Bad(BadField, 5) 0
000000050500023961 -> 0 Bad(BadField, 5) 0
000000440500416161616161616161616161616161616161616161616161616161616161616161616161616161616161616161616161616161616161616161616161616161616161 -> 0 Bad(BadField, 5) 0
00000006010003626f62 -> 0 Bad(BadField, 10) 0
0000000a010003626f6200037077 -> 0 Bad(BadField, 10) 0
00000008010003626f620000 -> 0 Bad(BadField, 10) 0
0000000b010003626f620003702077 -> 0 Bad(BadField, 10) 0
000000080400000000000007 -> 0 Bad(BadField, 5) 0
000000080d00000000000007 -> 0 Bad(BadField, 5) 0
0000000a0d000000000000000700 -> 0 Bad(Trailing, 13) 0
0000000e0c00017200016600000000000007 -> 0 Bad(BadField, 11) 0
00000005050001667800 -> 0 Bad(Trailing, 8) 1
000000080500047361797300 -> 0 Bad(BadField, 5) 0
0000000a010003626f6200027077000000050500016678 -> 1 Bad(Trailing, 22) 0
0000000a010003626f620002707700008401 -> 1 Bad(TooLong, 14) 0
0000000a010003626f620002707700000000 -> 1 Bad(BadKind, 18) 0
unbind 33790 -> 0 Bad(TooLong, 0) 33793";

// What is read of the bytes in pieces of each length; where that differs, all of it.
fn read_in_pieces(alloc: Global, bytes: &[u8]) -> Result<String, AllocError> {
    let mut told = String::new(alloc);
    for piece in PIECES {
        let next = read_all(alloc, bytes, piece, &[])?;
        push_other(&mut told, next.as_str())?;
    }
    Ok(told)
}

// Adds a text behind another.
fn push_other(told: &mut String, next: &str) -> Result<(), AllocError> {
    if told.as_str() == next {
        return Ok(());
    }
    told.push_str(next)
}

/// What is read of the bytes that a text spells.
pub fn requests_told(alloc: Global, text: &str) -> Result<String, AllocError> {
    let bytes = bytes_of(alloc, text)?;
    read_in_pieces(alloc, bytes.as_slice())
}

#[test]
fn each_fault_is_told_at_its_place(rt: HostRuntime) -> Result<(), AllocError> {
    hold(&rt, rt.alloc(), "requests", STREAMS)
}

const TWO_FRAMES: &str = "0000000a010003626f6200027077000000120c0004726561640001660000000000000007";

// The first number of bytes of a cut, and the last, and what is then read.
const CUTS: &str = "0 0 -> 0 End 0
1 13 -> 0 Torn 0
14 14 -> 1 End 0
15 35 -> 1 Torn 0
36 36 -> 2 End 0";

// The bytes of a piece, and the take that fails: the second take fails after three bytes, and the third behind the first frame.
const FAILING: &str = "3 2 -> 0 ReadFault 33
40000 3 -> 1 ReadFault 22";

/// What is read of the two frames where they are cut behind so many bytes, from the first number up to and with the second.
pub fn cut_told(alloc: Global, text: &str) -> Result<String, AllocError> {
    let (first, last) = text.split_once(' ').unwrap_or((text, text));
    let bytes = bytes_of(alloc, TWO_FRAMES)?;
    let mut told = String::new(alloc);
    for cut in number(first)..=number(last) {
        let left = bytes.as_slice().get(..cut).unwrap_or(&[]);
        let next = read_in_pieces(alloc, left)?;
        push_other(&mut told, next.as_str())?;
    }
    Ok(told)
}

/// What is read of the two frames in pieces of so many bytes where this take fails.
pub fn failing_told(alloc: Global, text: &str) -> Result<String, AllocError> {
    let (piece, take) = text.split_once(' ').unwrap_or((text, ""));
    let bytes = bytes_of(alloc, TWO_FRAMES)?;
    read_all(
        alloc,
        bytes.as_slice(),
        number(piece),
        &[number(take) as u64],
    )
}

#[test]
fn a_cut_stream_ends_at_an_edge_or_within_a_frame(rt: HostRuntime) -> Result<(), AllocError> {
    hold(&rt, rt.alloc(), "cut requests", CUTS)?;
    hold(&rt, rt.alloc(), "failing requests", FAILING)
}

// The frame of a request of each kind, and the number of its kind.
const REQUESTS: &str = "0000000a010003626f6200027077 -> 1
0000000a020001610004623a2063 -> 2
0000000c030102030405060708000162 -> 3
0000000904ffffffffffffffff -> 4
00000005050002665f -> 5
0000000f060004726561640001660003617c62 -> 6
0000000a07000472656164000166 -> 7
0000000c080004726561640001660000 -> 8
0000000a09000472656164000166 -> 9
0000000f0a00046e74703f0000000000000100 -> 10
000000040b0001ff -> 11
000000120c0004726561640001660000000000000007 -> 12
000000090d00000000000003e8 -> 13
unbind 33789 -> 11";

fn kind_of(request: &Request) -> u64 {
    match request {
        Request::Hello { .. } => 1,
        Request::Say { .. } => 2,
        Request::Transfer { .. } => 3,
        Request::Delete { .. } => 4,
        Request::NewObject { .. } => 5,
        Request::SetGoal { .. } => 6,
        Request::ClearGoal { .. } => 7,
        Request::SetProof { .. } => 8,
        Request::ClearProof { .. } => 9,
        Request::Bind { .. } => 10,
        Request::Unbind { .. } => 11,
        Request::Call { .. } => 12,
        Request::See { .. } => 13,
    }
}

/// The kind of the request that is read of a frame, if its frame is this one again.
pub fn request_told(alloc: Global, text: &str) -> Result<String, AllocError> {
    let frame = bytes_of(alloc, text)?;
    match MemLink::new(alloc, frame.as_slice(), 0, 40_000, &[], &[]) {
        Ok(mut link) => {
            let told = kind_told(alloc, frame.as_slice(), &mut link);
            drop(link);
            told
        }
        Err(AllocError) => Err(AllocError),
    }
}

fn kind_told(alloc: Global, frame: &[u8], link: &mut MemLink) -> Result<String, AllocError>
    requires { link.old.closed ≡ false }
{
    let mut reader = FrameReader::new(alloc)?;
    let framed = reader.next(link);
    drop(reader);
    let told = match &framed {
        Framed::Request(request) => {
            kind_if(alloc, request, write_request(alloc, request), frame)
        }
        _ => String::from_str(alloc, "no request"),
    };
    drop(framed);
    told
}

fn kind_if(
    alloc: Global,
    request: &Request,
    written: Result<Bytes, AllocError>,
    frame: &[u8],
) -> Result<String, AllocError> {
    let written = written?;
    if written.as_slice() == frame {
        format!(in alloc; "{}", kind_of(request))
    } else {
        String::from_str(alloc, "another frame")
    }
}

// The frame of Unbind with a text of so many letters.
fn unbind_frame(alloc: Global, letters: u16) -> Result<Vec<u8>, AllocError> {
    let payload = (u32::from(letters) + 3).to_be_bytes();
    let mut frame = Vec::from_slice(alloc, &payload)?;
    frame.push(11)?;
    frame.extend_from_slice(&letters.to_be_bytes())?;
    for _ in 0..letters {
        frame.push(b'a')?;
    }
    Ok(frame)
}

#[test]
fn requests_are_read_and_written(rt: HostRuntime) -> Result<(), AllocError> {
    hold(&rt, rt.alloc(), "request", REQUESTS)
}

// Bytes, what is read of them, and how many bytes are left: each reply; then lengths that no reply has, of which four bytes
// are taken; and kinds that are unknown or have another length, of which five are.
const REPLIES: &str = " -> End 0
000000114100000000000000010000000000000000 -> Reply(Welcome { session: 1, at: 0 }) 0
00000011420000000000000002000000000000000300 -> Reply(Done { at: 2, number: 3 }) 1
0000001943000000000000000200000000000000010000000000000100 -> Reply(Allowed { at: 2, hit: 1, value: 256 }) 0
00000021440000000000000002000000000000000300000000000000110000000000000008 -> Reply(Denied { at: 2, cause: 3, line: 17, fault: 8 }) 0
000000114500000000000000000000000000000014 -> Reply(Refused { at: 0, number: 20 }) 0
000000114600000000000000040000000000000002 -> Reply(Down { at: 4, line: 2 }) 0
000000014700 -> Reply(NoMemory) 1
00000009480000000000000005 -> Reply(Bad { place: 5 }) 0
000000094900000000000003e8 -> Reply(Seen { at: 1000 }) 0
000000004100 -> Bad 2
000000104100 -> Bad 2
000000294400 -> Bad 2
0100000147 -> Bad 1
000000114000 -> Bad 1
000000094a00 -> Bad 1
000000114900 -> Bad 1
000000194100 -> Bad 1
000000114300 -> Bad 1
000000094700 -> Bad 1
000000014800 -> Bad 1
00000001 -> Torn 0";

fn read_one(
    alloc: Global,
    bytes: &[u8],
    piece: usize,
    fails: &[u64],
) -> Result<String, AllocError> {
    match MemLink::new(alloc, bytes, 0, piece.max(1), fails, &[]) {
        Ok(mut link) => {
            let told = told_of_reply(alloc, bytes, &mut link);
            drop(link);
            told
        }
        Err(AllocError) => Err(AllocError),
    }
}

fn told_of_reply(alloc: Global, bytes: &[u8], link: &mut MemLink) -> Result<String, AllocError>
    requires { link.old.closed ≡ false }
{
    let read = read_reply(link);
    if begins_with(bytes, &read) {
        format!(in alloc; "{read:?} {}", link.left().len())
    } else {
        String::from_str(alloc, "another frame")
    }
}

// Whether the bytes begin with the frame of the reply that was read of them.
fn begins_with(bytes: &[u8], read: &ReplyRead) -> bool {
    let ReplyRead::Reply(reply) = read else {
        return true;
    };
    let mut frame = [0; 64];
    let count = write_reply(reply, &mut frame);
    bytes.starts_with(&frame[..count])
}

/// What is read of the bytes in pieces of each length; where that differs, all of it.
pub fn reply_told(alloc: Global, text: &str) -> Result<String, AllocError> {
    let bytes = bytes_of(alloc, text)?;
    let mut told = String::new(alloc);
    for piece in PIECES {
        let next = read_one(alloc, bytes.as_slice(), piece, &[])?;
        push_other(&mut told, next.as_str())?;
    }
    Ok(told)
}

const WELCOME: &str = "000000114100000000000000010000000000000000";

/// What is read of a reply's frame in pieces of three bytes, where it is cut behind so many bytes and this take fails.
pub fn reply_cut_told(alloc: Global, text: &str) -> Result<String, AllocError> {
    let (cut, take) = text.split_once(' ').unwrap_or((text, ""));
    let bytes = bytes_of(alloc, WELCOME)?;
    let left = bytes.as_slice().get(..number(cut)).unwrap_or(&[]);
    read_one(alloc, left, 3, &[number(take) as u64])
}

// So many bytes of a frame of 21, in pieces of three bytes, and the take that fails, 0 where none does.
const REPLY_CUTS: &str = "1 0 -> Torn 0
2 0 -> Torn 0
3 0 -> Torn 0
4 0 -> Torn 0
5 0 -> Torn 0
6 0 -> Torn 0
7 0 -> Torn 0
8 0 -> Torn 0
9 0 -> Torn 0
10 0 -> Torn 0
11 0 -> Torn 0
12 0 -> Torn 0
13 0 -> Torn 0
14 0 -> Torn 0
15 0 -> Torn 0
16 0 -> Torn 0
17 0 -> Torn 0
18 0 -> Torn 0
19 0 -> Torn 0
20 0 -> Torn 0
21 2 -> ReadFault 18";

#[test]
fn replies_are_read_and_written(rt: HostRuntime) -> Result<(), AllocError> {
    hold(&rt, rt.alloc(), "reply", REPLIES)?;
    hold(&rt, rt.alloc(), "cut reply", REPLY_CUTS)
}
