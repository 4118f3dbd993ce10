//! The lines that go to a keeper, and what comes back for each. `docs/FORMATS.md`, "Logs", states them.
ghost use Rattle.std.specs.Prelude.{◌≡◌, ◌≤◌, ◌+◌, ◌++◌, IfOk, length};
ghost use Rattle.line_log.specs.LogLines.{kept_text, request_text};

use arrayvec::ArrayVec;
use itoa::Buffer;
use std::alloc::{AllocError, Global};

/// How many bytes of an answer are looked at. No right one has more than 26 with its line feed.
pub const LONGEST_ANSWER: usize = 32;

/// The bytes that hand a line to a keeper, as the one of this number: of the opening text, or of a change. An `Err` is want of memory.
pub fn request(
    alloc: Global,
    is_change: bool,
    number: u64,
    line: &[u8],
) -> Result<Vec<u8>, AllocError>
    ensures { IfOk result (λ request. request.items ≡ request_text is_change number line.now) }
{
    let verb: &[u8] = if is_change { b"put " } else { b"have " };
    let mut digits = Buffer::new();
    let mut request = Vec::new(alloc);
    request.extend_from_slice(verb)?;
    request.extend_from_slice(digits.format(number).as_bytes())?;
    request.extend_from_slice(b" ")?;
    request.extend_from_slice(line)?;
    Ok(request)
}

/// The line by which a keeper answers that it keeps the line of this number. It takes no memory.
pub fn kept_line(number: u64) -> ArrayVec<u8, LONGEST_ANSWER>
    ensures line { result.items ≡ kept_text number }
    ensures short { length result.items ≤ 32 }
{
    let mut digits = Buffer::new();
    let mut line = ArrayVec::new();
    append(&mut line, b"kept ");
    append(&mut line, digits.format(number).as_bytes());
    append(&mut line, b"\n");
    line
}

/// Appends bytes for which there is room.
fn append(line: &mut ArrayVec<u8, LONGEST_ANSWER>, bytes: &[u8])
    requires room { length line.old.items + length bytes.now ≤ 32 }
    ensures text { line.new.items ≡ line.old.items ++ bytes.now }
    ensures long { length line.new.items ≡ length line.old.items + length bytes.now }
{
    match line.try_extend_from_slice(bytes) {
        Ok(()) => {}
        Err(_) => unreachable!(),
    }
}
