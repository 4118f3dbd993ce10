ghost use Rattle.std.specs.Prelude.{◌≡◌, ◌≤◌, ◌*◌, ◌∷◌, ◌++◌, [], drop, length, IfOk, OnOk};
ghost use Rattle.std.specs.List.{flat_map};
ghost use Rattle.byteorder.specs.Endian.{big_bytes};
ghost use Rattle.nal_term.specs.Names.{IsName};
ghost use Rattle.session_wire.specs.Inner.Writing.{HasShortTexts};
ghost use Rattle.session_wire.specs.Frames.{HasFittingParts, IsFrameOf, IsShort, framed, length_bytes, most_payload, number_bytes, reply_frame, request_payload, text_bytes};

use crate::replies::Reply;
use crate::requests::Request;
use byteorder::{BigEndian, ByteOrder};
use nal_term::Name;
use nx_io::Bytes;
use std::alloc::{AllocError, Global};

/// Writes the frame of a reply to the front of the buffer, and answers how many bytes it has. The others stay as they were.
/// It takes no memory. `docs/FORMATS.md`, "Frames", states the frames.
pub fn write_reply(reply: &Reply, into: &mut [u8; 64]) -> usize
    ensures count { result ≡ length (reply_frame reply.now) }
    ensures bytes { into.new ≡ reply_frame reply.now ++ drop result into.old }
{
    match *reply {
        Reply::Welcome { session, at } => put_frame(65, &[session, at], into),
        Reply::Done { at, number } => put_frame(66, &[at, number], into),
        Reply::Allowed { at, hit, value } => put_frame(67, &[at, hit, value], into),
        Reply::Denied {
            at,
            cause,
            line,
            fault,
        } => put_frame(68, &[at, cause, line, fault], into),
        Reply::Refused { at, number } => put_frame(69, &[at, number], into),
        Reply::Down { at, line } => put_frame(70, &[at, line], into),
        Reply::NoMemory => put_frame(71, &[], into),
        Reply::Bad { place } => put_frame(72, &[place], into),
        Reply::Seen { at } => put_frame(73, &[at], into),
    }
}

/// Writes a frame of this kind whose fields are numbers, at most four.
fn put_frame(kind: u8, numbers: &[u64], into: &mut [u8]) -> usize
    requires few { length numbers.now ≤ 4 }
    requires room { length into.old ≡ 64 }
    ensures count { result ≡ length (framed (kind ∷ flat_map number_bytes numbers.now)) }
    ensures bytes { into.new ≡ framed (kind ∷ flat_map number_bytes numbers.now) ++ drop result into.old }
{
    let count = 1 + 8 * numbers.len();
    put_length(count as u32, into);
    into[4] = kind;
    put_numbers(numbers, &mut into[5..]);
    4 + count
}

fn put_numbers(numbers: &[u64], into: &mut [u8])
    requires { 8 * length numbers.now ≤ length into.old }
    ensures { into.new ≡ flat_map number_bytes numbers.now ++ drop (8 * length numbers.now) into.old }
{
    for (i, number) in numbers.iter().enumerate() {
        put_number(*number, &mut into[8 * i..]);
    }
}

#[tactic(auto, unfolding(crate::specs::Frames::length_bytes))]
fn put_length(count: u32, into: &mut [u8])
    requires { 4 ≤ length into.old }
    ensures { into.new ≡ length_bytes count ++ drop 4 into.old }
{
    BigEndian::write_u32(into, count);
}

#[tactic(auto, unfolding(crate::specs::Frames::number_bytes))]
fn put_number(number: u64, into: &mut [u8])
    requires { 8 ≤ length into.old }
    ensures { into.new ≡ number_bytes number ++ drop 8 into.old }
{
    BigEndian::write_u64(into, number);
}

/// The frame of a request whose payload has at most 33,792 bytes. An `Err` is want of memory. `docs/FORMATS.md`, "Frames",
/// states the frames.
pub fn write_request(alloc: Global, request: &Request) -> Result<Bytes, AllocError>
    requires { length (request_payload request.now) ≤ most_payload }
    ensures { IfOk result (IsFrameOf request.now) }
{
    let payload = payload(alloc, request)?;
    let mut frame = Vec::new(alloc);
    push_length(&mut frame, payload.len() as u32)?;
    frame.extend_from_slice(payload.as_slice())?;
    Ok(Bytes::from_vec(frame))
}

fn payload(alloc: Global, request: &Request) -> Result<Vec<u8>, AllocError>
    requires { HasShortTexts request.now }
    ensures bytes { IfOk result (λ payload. payload.items ≡ request_payload request.now) }
    ensures parts { IfOk result (λ _. HasFittingParts request.now) }
{
    match request {
        Request::Hello { name, secret } => {
            let front = with_text(kind(alloc, 1)?, name.as_slice())?;
            with_text(front, secret.as_slice())
        }
        Request::Say { principal, formula } => {
            let front = with_text(kind(alloc, 2)?, principal.as_slice())?;
            with_text(front, formula.as_slice())
        }
        Request::Transfer { number, to } => {
            let front = with_number(kind(alloc, 3)?, *number)?;
            with_text(front, to.as_slice())
        }
        Request::Delete { number } => with_number(kind(alloc, 4)?, *number),
        Request::NewObject { name } => with_text(kind(alloc, 5)?, name.as_slice()),
        Request::SetGoal {
            op,
            object,
            formula,
        } => with_text(place(alloc, 6, op, object)?, formula.as_slice()),
        Request::ClearGoal { op, object } => place(alloc, 7, op, object),
        Request::SetProof { op, object, proof } => {
            with_text(place(alloc, 8, op, object)?, proof.as_slice())
        }
        Request::ClearProof { op, object } => place(alloc, 9, op, object),
        Request::Bind { principal, port } => {
            let front = with_text(kind(alloc, 10)?, principal.as_slice())?;
            with_number(front, *port)
        }
        Request::Unbind { principal } => with_text(kind(alloc, 11)?, principal.as_slice()),
        Request::Call { op, object, arg } => with_number(place(alloc, 12, op, object)?, *arg),
        Request::See { number } => with_number(kind(alloc, 13)?, *number),
    }
}

fn kind(alloc: Global, kind: u8) -> Result<Vec<u8>, AllocError>
    ensures { IfOk result (λ front. front.items ≡ kind ∷ []) }
{
    let mut front = Vec::new(alloc);
    front.push(kind)?;
    Ok(front)
}

/// A kind, an operation and an object.
fn place(alloc: Global, kind: u8, op: &Name, object: &Name) -> Result<Vec<u8>, AllocError>
    ensures bytes { IfOk result (λ front. front.items ≡ kind ∷ (text_bytes op.now ++ text_bytes object.now)) }
    ensures op { IfOk result (λ _. IsName op.now) }
    ensures object { IfOk result (λ _. IsName object.now) }
{
    let front = with_text(self::kind(alloc, kind)?, op.as_slice())?;
    with_text(front, object.as_slice())
}

/// A text more.
fn with_text(mut front: Vec<u8>, text: &[u8]) -> Result<Vec<u8>, AllocError>
    requires { IsShort text.now }
    ensures { IfOk result (λ payload. payload.items ≡ front.items ++ text_bytes text.now) }
{
    push_short(&mut front, text.len() as u16)?;
    front.extend_from_slice(text)?;
    Ok(front)
}

/// A number more.
#[tactic(auto, unfolding(crate::specs::Frames::number_bytes))]
fn with_number(mut front: Vec<u8>, number: u64) -> Result<Vec<u8>, AllocError>
    ensures { IfOk result (λ payload. payload.items ≡ front.items ++ number_bytes number) }
{
    let mut bytes = [0; 8];
    BigEndian::write_u64(&mut bytes, number);
    front.extend_from_slice(&bytes)?;
    Ok(front)
}

fn push_short(front: &mut Vec<u8>, number: u16) -> Result<(), AllocError>
    ensures { OnOk result (front.new.items ≡ front.old.items ++ big_bytes 2 number) }
{
    let mut bytes = [0; 2];
    BigEndian::write_u16(&mut bytes, number);
    front.extend_from_slice(&bytes)
}

#[tactic(auto, unfolding(crate::specs::Frames::length_bytes))]
fn push_length(front: &mut Vec<u8>, count: u32) -> Result<(), AllocError>
    ensures { OnOk result (front.new.items ≡ front.old.items ++ length_bytes count) }
{
    let mut bytes = [0; 4];
    BigEndian::write_u32(&mut bytes, count);
    front.extend_from_slice(&bytes)
}
