ghost use Rattle.std.specs.Prelude.{◌≡◌, ◌<◌, ◌≤◌, ◌+◌, ◌^◌, IfOk, length, false};
ghost use Rattle.nx_io.specs.Links.{KeepsGoing};
ghost use Rattle.nx_io.specs.Views.{HasTaken, IsSameLink};
ghost use Rattle.nx_io.specs.Streams.{gained};
ghost use Rattle.session_wire.specs.Frames.{framed, most_payload};
ghost use Rattle.session_wire.specs.Answers.{IsAtItsEnd, IsTakenFor, faults_after_frame, over_after_frame};
ghost use Rattle.session_wire.specs.Inner.Taking.{FillsFewer, TakesFor, early_answer};

use crate::fields::{FrameFault, judge};
use crate::filling::{Filled, fill};
use crate::reading::read_payload;
use crate::requests::Request;
use byteorder::{BigEndian, ByteOrder};
use nx_io::Link;
use std::alloc::{AllocError, Global};
use std::marker::Model;

/// How many bytes a payload may have.
const MOST_PAYLOAD: usize = 33_792;

/// How many bytes a frame may have: those of its length and of its payload.
const MOST_FRAME: usize = 33_796;

/// What a reader of frames answers.
#[derive(Drop)]
pub enum Framed {
    /// The next frame is that of this request.
    Request(Request),
    /// The link has ended where no byte of a frame had come.
    End,
    /// The link has ended within a frame.
    Torn,
    /// What comes next is no request's frame. The place is that of a byte, counted from the first that the reader took.
    Bad { fault: FrameFault, place: u64 },
    /// The link has failed.
    ReadFault,
    /// There was no memory for the request, which is not one that asks for a point. Its whole frame was taken.
    Memory,
}

/// Reads frames from a link, all of them into one buffer. Contracts see how many bytes it has taken.
/// `docs/FORMATS.md`, "Frames", states the frames.
#[derive(Drop)]
pub struct FrameReader {
    alloc: Global,
    buffer: Vec<u8>,
    taken: u64,
}

impl Model for FrameReader {
    ghost use Rattle.std.specs.Prelude.{◌≡◌, ℕ, length};

    ghost Value = { ℕ };

    ghost view = { λ r. r.taken };

    ghost invariant = { λ r. length r.buffer.items ≡ 33796 };
}

impl FrameReader {
    /// A reader that has taken no byte. An `Err` is want of memory for its buffer.
    pub fn new(alloc: Global) -> Result<FrameReader, AllocError>
        ensures { IfOk result (λ reader. reader ≡ 0) }
    {
        Ok(FrameReader {
            alloc,
            buffer: vec![in alloc; 0; MOST_FRAME]?,
            taken: 0,
        })
    }

    /// Reads the next frame, whatever the pieces in which it comes, and takes no byte behind it. It asks that the link is open
    /// and that fewer than 2^63 bytes were taken.
    ///
    /// A frame is judged before anything is copied of it: `Memory` comes only where a whole frame of a request was taken.
    /// After `End`, `Torn`, `Bad` and `ReadFault` there is no next frame.
    pub fn next<L: Link>(&mut self, link: &mut L) -> Framed
        requires few { self.old < 2 ^ 63 }
        requires open { L.closed link.old ≡ false }
        ensures size { self.new ≡ self.old + length (gained (L.taken link.old) (L.taken link.new)) }
        ensures few { self.new ≤ self.old + 33796 }
        ensures front { IsTakenFor result self.old (gained (L.taken link.old) (L.taken link.new)) }
        ensures bytes { HasTaken L.Link link.old link.new }
        ensures end { IsAtItsEnd result (L.left link.new) }
        ensures over { L.over link.new
            ≡ over_after_frame result (gained (L.taken link.old) (L.taken link.new)) (L.over link.old) }
        ensures going { KeepsGoing (L.sent link.old) (L.sent link.new) (L.closed link.old) (L.closed link.new) }
        ensures origin { IsSameLink L.Link link.old link.new }
        ensures admitted { L.admitted link.new ≡ L.admitted link.old }
        ensures later { L.faults link.old ≤ L.faults link.new }
        ensures count { L.faults link.new ≡ faults_after_frame result (L.faults link.old) }
    {
        let (answer, count) = read_frame(self.alloc, self.taken, self.buffer.as_mut_slice(), link);
        self.taken += count as u64;
        answer
    }
}

/// Reads a frame that begins at a place, and says how many bytes were taken.
fn read_frame<L: Link>(
    alloc: Global,
    start: u64,
    buffer: &mut [u8],
    link: &mut L,
) -> (Framed, usize)
    requires size { length buffer.old ≡ 33796 }
    requires start { start < 2 ^ 63 }
    requires open { L.closed link.old ≡ false }
    ensures small { result.1 ≤ 33796 }
    ensures bytes { TakesFor result.0 result.1 start (L.left link.old) (L.left link.new) (L.taken link.old)
        (L.taken link.new) (L.over link.old) (L.over link.new) }
    ensures going { KeepsGoing (L.sent link.old) (L.sent link.new) (L.closed link.old) (L.closed link.new) }
    ensures origin { IsSameLink L.Link link.old link.new }
    ensures admitted { L.admitted link.new ≡ L.admitted link.old }
    ensures later { L.faults link.old ≤ L.faults link.new }
    ensures count { L.faults link.new ≡ faults_after_frame result.0 (L.faults link.old) }
{
    let (head, rest) = buffer.split_at_mut(4);
    if let Some(answer) = early_answer(fill(link, head), 0) {
        return answer;
    }
    let length = BigEndian::read_u32(head) as usize;
    if length > MOST_PAYLOAD {
        let fault = FrameFault::TooLong;
        return (
            Framed::Bad {
                fault,
                place: start,
            },
            4,
        );
    }
    let payload = &mut rest[..length];
    if let Some(answer) = early_answer(fill(link, payload), 4) {
        return answer;
    }
    (answer_to(alloc, start, payload), 4 + length)
}

/// The answer where a buffer was not filled, and how many bytes were taken for it.
fn early_answer(filled: Filled, before: usize) -> Option<(Framed, usize)>
    requires before { before ≤ 4 }
    requires few { FillsFewer filled 33792 }
    ensures { result ≡ early_answer filled before }
{
    match filled {
        Filled::Whole => None,
        Filled::Ended(count) => {
            let count = before + count;
            Some((
                if count == 0 {
                    Framed::End
                } else {
                    Framed::Torn
                },
                count,
            ))
        }
        Filled::Failed(count) => Some((Framed::ReadFault, before + count)),
    }
}

/// The answer to a whole frame with this payload, which begins at a place.
fn answer_to(alloc: Global, start: u64, payload: &[u8]) -> Framed
    requires size { length payload.now ≤ most_payload }
    requires start { start < 2 ^ 63 }
    ensures { IsTakenFor result start (framed payload.now) }
{
    if let Some((fault, within)) = judge(payload) {
        let place = start + 4 + within as u64;
        return Framed::Bad { fault, place };
    }
    let Some((kind, body)) = payload.split_first() else {
        unreachable!()
    };
    match read_payload(alloc, *kind, body) {
        Ok(request) => Framed::Request(request),
        Err(AllocError) => Framed::Memory,
    }
}
