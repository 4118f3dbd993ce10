//! What a session is asked over a link, and the replies that it is to be told.
ghost use Rattle.std.specs.Prelude.{IfOk};
ghost use Rattle.nx_io.specs.MemoryDoors.{IsFreshWire};

use crate::frames::bytes_of;
use crate::tables::number;
use nx_io::MemLink;
use std::alloc::{AllocError, Global};

/// A link that gives pieces of this length and has this room, and fails at this take and this send, from 1; what is asked over it,
/// and the frames of the replies.
#[derive(Drop)]
pub struct Talk {
    piece: usize,
    room: usize,
    take: u64,
    send: u64,
    pub asked: Vec<u8>,
    pub told: Vec<u8>,
}

// The numbers of a text, of which there are four at most; one that is missing is 0.
fn numbers(text: &str) -> [u64; 4] {
    let mut numbers = [0; 4];
    for (slot, word) in numbers.iter_mut().zip(text.split_whitespace()) {
        *slot = number(word);
    }
    numbers
}

/// The talk of a line: the four numbers of its link and a colon, or a link that does not fail; the words of what is asked, an
/// equality sign, and the words of what is told.
pub fn talk_of(alloc: Global, line: &str) -> Result<Talk, AllocError> {
    let (link, words) = line.split_once(": ").unwrap_or(("1000 40000000", line));
    let (asked, told) = words.split_once(" = ").unwrap_or(("", ""));
    let [piece, room, take, send] = numbers(link);
    let asked = bytes_of(alloc, asked)?;
    let told = bytes_of(alloc, told)?;
    Ok(Talk {
        piece: piece as usize,
        room: room as usize,
        take,
        send,
        asked,
        told,
    })
}

/// The link of a talk, which gives these bytes, and of which nothing was asked yet.
pub fn link_of(alloc: Global, talk: &Talk, left: &[u8]) -> Result<MemLink, AllocError>
    ensures { IfOk result IsFreshWire }
{
    MemLink::new(
        alloc,
        left,
        talk.room,
        talk.piece.max(1),
        &[talk.take],
        &[talk.send],
    )
}
