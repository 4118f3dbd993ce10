// One question to an authority and the line that comes back, over any sink and source.
ghost use Rattle.std.specs.Prelude.{◌≡◌, ◌⊎◌, ◌++◌, ◌<◌, ◌≤◌, IfOk, length, take};
ghost use Rattle.nal_term.specs.Trees.{formula_tree};
ghost use Rattle.nx_io.specs.Streams.{Rose};
ghost use Rattle.authority_ask.specs.Exchanges.{question_line};
ghost use Rattle.authority_ask.specs.Inner.Conversations.{HasStopped, IsReply};

use nal_parse::print_formula;
use nal_term::Formula;
use nx_io::{Bytes, Got, Reach, Sink, Source, send_all};
use std::alloc::{AllocError, Global};

/// How many bytes of an answer are looked at. No answer has more than four with its line feed.
pub const ROOM: usize = 16;

/// What came back.
#[derive(Clone, Copy, Debug, PartialEq, Eq)]
pub enum Reply {
    /// A line with an answer, and nothing behind it.
    Line { yes: bool },
    /// A line with an answer, and bytes behind it.
    LineAndMore { yes: bool },
    /// No line with an answer.
    Broken,
}

/// The line that asks whether a statement holds. An `Err` is want of memory.
pub fn question_line(alloc: Global, statement: &Formula) -> Result<Bytes, AllocError>
    ensures { IfOk result (λ line. line ≡ question_line (formula_tree statement.now)) }
{
    let text = print_formula(alloc, statement)?;
    let mut line = Bytes::of(alloc, b"ask ")?;
    line.extend(text.as_slice())?;
    line.extend(b"\n")?;
    Ok(line)
}

/// Sends a question, and reads what comes back into the front of the answer, up to a line feed, an end or a failure: so many
/// bytes came. It takes no memory.
///
/// None came where the question was not sent whole. Nothing more was read where a line feed came or the answer is full, the source
/// has ended, or an end has failed.
pub fn converse<S: Source, K: Sink>(
    source: &mut S,
    sink: &mut K,
    question: &[u8],
    answer: &mut [u8],
) -> usize
    requires { length answer.old ≡ 16 }
    ensures within { result ≤ 16 }
    ensures given { S.given source.new ≡ S.given source.old ++ take result answer.new }
    ensures sent { 0 < result → K.sent sink.new ≡ K.sent sink.old ++ question.now }
    ensures cause { Rose (K.faults sink.old) (K.faults sink.new)
        ⊎ HasStopped (take result answer.new) (S.over source.new) (S.faults source.old) (S.faults source.new) }
{
    match send_all(sink, question) {
        Reach::Ready => read_line(source, answer),
        Reach::Failed => 0,
    }
}

/// Reads an answer's line, up to a line feed, an end or a failure.
fn read_line<S: Source>(source: &mut S, answer: &mut [u8]) -> usize
    requires { length answer.old ≡ 16 }
    ensures within { result ≤ 16 }
    ensures given { S.given source.new ≡ S.given source.old ++ take result answer.new }
    ensures cause { HasStopped (take result answer.new) (S.over source.new) (S.faults source.old)
        (S.faults source.new) }
{
    let mut filled = 0;
    while filled < ROOM && !answer[..filled].contains(&b'\n') {
        match source.read(&mut answer[filled..]) {
            Got::Bytes(count) => filled += count,
            Got::End | Got::Failed => return filled,
        }
    }
    filled
}

/// What the bytes that came back are.
pub fn reply_in(bytes: &[u8]) -> Reply
    ensures { IsReply bytes.now result }
{
    match bytes {
        [b'y', b'e', b's', b'\n'] => Reply::Line { yes: true },
        [b'n', b'o', b'\n'] => Reply::Line { yes: false },
        [b'y', b'e', b's', b'\n', ..] => Reply::LineAndMore { yes: true },
        [b'n', b'o', b'\n', ..] => Reply::LineAndMore { yes: false },
        _ => Reply::Broken,
    }
}
