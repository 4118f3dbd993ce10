//! Reading a source whole.
ghost use Rattle.std.specs.Prelude.{◌≡◌, ◌<◌, ◌≤◌, Err, IfOk, IsTrue, length};
ghost use Rattle.std.specs.Io.KnownBytes.{IsAtEnd};
ghost use Rattle.nx_io.specs.Streams.{gained};
ghost use Rattle.nx_io.specs.Views.{HasGiven};
ghost use Rattle.run_streams.specs.Runs.{most_bytes};
ghost use Rattle.run_streams.specs.Reading.{faults_after_reading};

use nx_io::{Got, Source};
use std::alloc::{AllocError, Global};

/// How many bytes an input has at most.
const MOST_BYTES: usize = 67_108_864;

/// How many bytes one read asks for. The buffer lies on the stack and is filled before anything else takes memory, so that
/// there is as much stack later as the deepest formula wants; `docs/OPERATING.md`, "Stack", says how much that is.
const BUFFER_SIZE: usize = 393_216;

/// How much stack there may be in use beside the buffer.
const STACK_BESIDE: usize = 131_072;

/// Why a source was not read whole.
#[derive(Clone, Copy, Debug, PartialEq, Eq)]
pub enum ReadError {
    /// It gave more than 67,108,864 bytes.
    TooLarge,
    /// It failed.
    Failed,
    /// There was no memory for what it gave.
    Memory,
}

/// Whether there is room for the stack to grow by as much as the buffer takes. As much memory is taken and given back, since
/// a stack that can't grow ends the process, and want of memory doesn't.
fn has_room(alloc: Global) -> bool {
    let room: Result<Vec<u8>, AllocError> = Vec::with_capacity(alloc, BUFFER_SIZE + STACK_BESIDE);
    room.is_ok()
}

/// Reads a source to its end, or until it has given more bytes than an input may have.
pub fn read_whole<S: Source>(alloc: Global, source: &mut S) -> Result<Vec<u8>, ReadError>
    ensures gave { HasGiven S.Source source.old source.new }
    ensures whole { IfOk result (λ whole. (length whole.items ≤ most_bytes)
        × (gained (S.given source.old) (S.given source.new) ≡ whole.items) × IsTrue (S.over source.new)
        × IsAtEnd (S.left source.new)) }
    ensures large { result ≡ Err ReadError.TooLarge
        → most_bytes < length (gained (S.given source.old) (S.given source.new)) }
    ensures count { S.faults source.new ≡ faults_after_reading result (S.faults source.old) }
{
    if has_room(alloc) {
        read_buffered(alloc, source)
    } else {
        Err(ReadError::Memory)
    }
}

/// As `read_whole`, where there is room for the buffer. A call of its own, so that the buffer is on the stack only while it
/// lasts.
#[inline(never)]
fn read_buffered<S: Source>(alloc: Global, source: &mut S) -> Result<Vec<u8>, ReadError>
    ensures gave { HasGiven S.Source source.old source.new }
    ensures whole { IfOk result (λ whole. (length whole.items ≤ most_bytes)
        × (gained (S.given source.old) (S.given source.new) ≡ whole.items) × IsTrue (S.over source.new)
        × IsAtEnd (S.left source.new)) }
    ensures large { result ≡ Err ReadError.TooLarge
        → most_bytes < length (gained (S.given source.old) (S.given source.new)) }
    ensures count { S.faults source.new ≡ faults_after_reading result (S.faults source.old) }
{
    let mut whole = Vec::new(alloc);
    let mut buffer = [0u8; BUFFER_SIZE];
    loop {
        match source.read(&mut buffer) {
            Got::Bytes(count) => {
                if whole.extend_from_slice(&buffer[..count]).is_err() {
                    return Err(ReadError::Memory);
                }
                if whole.len() > MOST_BYTES {
                    return Err(ReadError::TooLarge);
                }
            }
            Got::End => return Ok(whole),
            Got::Failed => return Err(ReadError::Failed),
        }
    }
}
