ghost use Rattle.std.specs.Prelude.{◌≡◌, ◌↔◌, ◌≤◌, ◌+◌, ◌*◌, ◌∷◌, ◌++◌, [], IfSome, IsTrue, MatchOption, None, Some, length, false};
ghost use Rattle.nx_io.specs.Links.{KeepsGoing};
ghost use Rattle.nx_io.specs.Views.{HasTaken, IsSameLink};
ghost use Rattle.nx_io.specs.Streams.{gained};
ghost use Rattle.session_wire.specs.Frames.{HasFittingNumbers, number_bytes, reply_payload};
ghost use Rattle.session_wire.specs.Replies.{IsReplyLength, count_of_kind};
ghost use Rattle.session_wire.specs.Answers.{IsAtReplysEnd, IsTakenForReply, faults_after_reply, over_after_reply};
ghost use Rattle.session_wire.specs.Inner.Replies.{HoldNumbers};
ghost use Rattle.session_wire.specs.Inner.Taking.{FillsFewer, TakesForReply, early_reply};

use crate::filling::{Filled, fill};
use crate::replies::Reply;
use byteorder::{BigEndian, ByteOrder};
use nx_io::Link;

/// What is answered where a reply is read.
#[derive(Clone, Copy, Debug, PartialEq, Eq)]
pub enum ReplyRead {
    /// This reply came.
    Reply(Reply),
    /// The link has ended where no byte of a reply had come.
    End,
    /// The link has ended within a reply.
    Torn,
    /// What comes is no reply.
    Bad,
    /// The link has failed.
    ReadFault,
}

/// Reads a reply of an open link, whatever the pieces in which it comes, and takes no byte behind it. It takes no memory.
///
/// `Bad` comes after four bytes where no reply has their length, and after five where the kind is unknown or has another
/// length. `docs/FORMATS.md`, "Frames", states the frames.
pub fn read_reply<L: Link>(link: &mut L) -> ReplyRead
    requires open { L.closed link.old ≡ false }
    ensures front { IsTakenForReply result (gained (L.taken link.old) (L.taken link.new)) }
    ensures bytes { HasTaken L.Link link.old link.new }
    ensures end { IsAtReplysEnd result (L.left link.new) }
    ensures over { L.over link.new
        ≡ over_after_reply result (gained (L.taken link.old) (L.taken link.new)) (L.over link.old) }
    ensures going { KeepsGoing (L.sent link.old) (L.sent link.new) (L.closed link.old) (L.closed link.new) }
    ensures origin { IsSameLink L.Link link.old link.new }
    ensures admitted { L.admitted link.new ≡ L.admitted link.old }
    ensures later { L.faults link.old ≤ L.faults link.new }
    ensures count { L.faults link.new ≡ faults_after_reply result (L.faults link.old) }
{
    take_reply(link)
}

/// As `read_reply`, with what was taken in one clause.
fn take_reply<L: Link>(link: &mut L) -> ReplyRead
    requires open { L.closed link.old ≡ false }
    ensures bytes { TakesForReply result (L.left link.old) (L.left link.new) (L.taken link.old) (L.taken link.new)
        (L.over link.old) (L.over link.new) }
    ensures going { KeepsGoing (L.sent link.old) (L.sent link.new) (L.closed link.old) (L.closed link.new) }
    ensures origin { IsSameLink L.Link link.old link.new }
    ensures admitted { L.admitted link.new ≡ L.admitted link.old }
    ensures later { L.faults link.old ≤ L.faults link.new }
    ensures count { L.faults link.new ≡ faults_after_reply result (L.faults link.old) }
{
    let mut head = [0; 4];
    if let Some(answer) = early_reply(fill(link, &mut head), 0) {
        return answer;
    }
    let length = BigEndian::read_u32(&head) as usize;
    if !is_reply_length(length) {
        return ReplyRead::Bad;
    }
    let mut kind = [0; 1];
    if let Some(answer) = early_reply(fill(link, &mut kind), 4) {
        return answer;
    }
    let Some(count) = count_of_kind(kind[0]) else {
        return ReplyRead::Bad;
    };
    if length != 1 + 8 * count {
        return ReplyRead::Bad;
    }
    let mut numbers = [0; 32];
    let numbers = &mut numbers[..8 * count];
    if let Some(answer) = early_reply(fill(link, numbers), 5) {
        return answer;
    }
    ReplyRead::Reply(reply_of(kind[0], numbers))
}

/// The answer where a buffer was not filled, so many bytes being taken before.
fn early_reply(filled: Filled, before: usize) -> Option<ReplyRead>
    requires before { before ≤ 5 }
    requires few { FillsFewer filled 33792 }
    ensures { result ≡ early_reply filled before }
{
    match filled {
        Filled::Whole => None,
        Filled::Ended(count) => Some(if before + count == 0 {
            ReplyRead::End
        } else {
            ReplyRead::Torn
        }),
        Filled::Failed(_) => Some(ReplyRead::ReadFault),
    }
}

/// Whether a reply's payload may have this length.
fn is_reply_length(length: usize) -> bool
    ensures { IsTrue result ↔ IsReplyLength length }
{
    length <= 33 && length % 8 == 1
}

/// How many numbers a reply of this kind holds, at most 4.
#[tactic(auto, unfolding(crate::specs::Replies::count_of_kind))]
fn count_of_kind(kind: u8) -> Option<usize>
    ensures count { MatchOption result (count_of_kind kind ≡ None) (λ count. count_of_kind kind ≡ Some count) }
    ensures few { IfSome result (λ count. count ≤ 4) }
{
    match kind {
        65 | 66 | 69 | 70 => Some(2),
        67 => Some(3),
        68 => Some(4),
        71 => Some(0),
        72 | 73 => Some(1),
        _ => None,
    }
}

/// The reply of this kind with these numbers.
#[tactic(auto, unfolding(crate::specs::Replies::count_of_kind))]
fn reply_of(kind: u8, numbers: &[u8]) -> Reply
    requires { HoldNumbers (count_of_kind kind) (length numbers.now) }
    ensures numbers { HasFittingNumbers result }
    ensures bytes { reply_payload result ≡ kind ∷ numbers.now }
{
    match kind {
        65 => {
            let (session, at) = two_numbers(numbers);
            Reply::Welcome { session, at }
        }
        66 => {
            let (at, number) = two_numbers(numbers);
            Reply::Done { at, number }
        }
        67 => {
            let (front, rest) = numbers.split_at(8);
            let (hit, value) = two_numbers(rest);
            Reply::Allowed {
                at: one_number(front),
                hit,
                value,
            }
        }
        68 => {
            let (front, rest) = numbers.split_at(16);
            let (at, cause) = two_numbers(front);
            let (line, fault) = two_numbers(rest);
            Reply::Denied {
                at,
                cause,
                line,
                fault,
            }
        }
        69 => {
            let (at, number) = two_numbers(numbers);
            Reply::Refused { at, number }
        }
        70 => {
            let (at, line) = two_numbers(numbers);
            Reply::Down { at, line }
        }
        71 => Reply::NoMemory,
        72 => Reply::Bad {
            place: one_number(numbers),
        },
        73 => Reply::Seen {
            at: one_number(numbers),
        },
        _ => unreachable!(),
    }
}

fn two_numbers(bytes: &[u8]) -> (u64, u64)
    requires { length bytes.now ≡ 16 }
    ensures { number_bytes result.0 ++ number_bytes result.1 ≡ bytes.now }
{
    let (first, second) = bytes.split_at(8);
    (one_number(first), one_number(second))
}

fn one_number(bytes: &[u8]) -> u64
    requires { length bytes.now ≡ 8 }
    ensures { number_bytes result ≡ bytes.now }
{
    BigEndian::read_u64(bytes)
}
