// Plays rows of runs that are neither a service nor a client, over streams and a panel in memory. In a row `|` stands for a line feed.
use authority_ask::{Ask, MemPanel};
use nexus_run::{Call, call_of, run_plain};
use nx_io::{MemSink, MemSource};
use run_streams::tell_note;
use std::alloc::{AllocError, Global};
use std::mem;
use std::net::{Net, TcpListener, TcpStream};
use std::process::Abort;
use std::rt::Clock;
use std::sync::Wait;
use std::thread::Threads;

// The pieces in which bytes are read and written, and the numbers of the read, the write, the sync, the write of a record and the reach that
// fail, 0 where none does.
#[derive(Clone, Copy)]
pub struct Streams {
    pub read: usize,
    pub write: usize,
    pub read_fails: u64,
    pub write_fails: u64,
    pub sync_fails: u64,
    pub record_fails: u64,
    pub reach_fails: u64,
}

// Pieces of so many bytes, and no failure.
pub const fn pieces(read: usize, write: usize) -> Streams {
    Streams {
        read,
        write,
        read_fails: 0,
        write_fails: 0,
        sync_fails: 0,
        record_fails: 0,
        reach_fails: 0,
    }
}

// The bytes that a text spells.
pub fn spelled(alloc: Global, text: &str) -> Result<Vec<u8>, AllocError> {
    let mut bytes = Vec::new(alloc);
    for byte in text.as_bytes() {
        bytes.push(if *byte == b'|' { b'\n' } else { *byte })?;
    }
    Ok(bytes)
}

// Appends the bytes as a row shows them.
pub fn show(bytes: &[u8], shown: &mut Vec<u8>) -> Result<(), AllocError> {
    for byte in bytes {
        shown.push(if *byte == b'\n' { b'|' } else { *byte })?;
    }
    Ok(())
}

// The words of a call, which spaces part.
pub fn words_of<'a>(alloc: Global, text: &'a str) -> Result<Vec<&'a str>, AllocError> {
    let mut words = Vec::new(alloc);
    for word in text.split(' ') {
        words.push(word)?;
    }
    Ok(words)
}

fn ask_of(letter: u8) -> Ask {
    match letter {
        b'y' => Ask::Yes,
        b'n' => Ask::No,
        _ => Ask::Down,
    }
}

// The answers that these letters stand for: `y`, `n`, and `d` for none.
pub fn asks_of(alloc: Global, letters: &str) -> Result<Vec<Ask>, AllocError> {
    let mut asks = Vec::new(alloc);
    for letter in letters.as_bytes() {
        asks.push(ask_of(*letter))?;
    }
    Ok(asks)
}

// The status of a run with these words, over a panel that gives these answers: 2, as `run` has it, where they are those of no command
// that is neither a service nor a talk. What is wrong with an input that is refused is sent to the records, as `run` does. What is handed back
// is kept, since it takes long to prove that it may be dropped.
fn status_of<R>(
    rt: &R,
    alloc: Global,
    words: &[&str],
    source: &mut MemSource,
    records: &mut MemSink,
    sink: &mut MemSink,
    answers: &[Ask],
    reach_fails: u64,
) -> Result<u8, AllocError>
where
    R: Net<Listener = TcpListener, Stream = TcpStream> + Clock + Wait + Threads + Sync,
{
    let Some(Call::Plain(command)) = call_of(words) else {
        return Ok(2);
    };
    let panel = MemPanel::new(alloc, answers, &[reach_fails], &[])?;
    let end = run_plain(rt, alloc, command, source, records, sink, panel);
    let (status, refusal) = (end.status, end.refusal);
    mem::forget(end);
    if let Some(refusal) = refusal {
        tell_note(records, refusal);
    }
    Ok(status)
}

// How much of an input is left.
fn left_of(left: usize, whole: usize) -> &'static str {
    if left == 0 {
        "none"
    } else if left == whole {
        "all"
    } else {
        "some"
    }
}

// The status, how much of the input is left, what was written, and behind `+` the records, where there are some.
fn shown(
    alloc: Global,
    status: Result<u8, AllocError>,
    left: &'static str,
    sent: &[u8],
    recorded: &[u8],
) -> Result<Vec<u8>, AllocError> {
    let status = status?;
    let mut shown = format!(in alloc; "{status} {left}:")?.into_bytes();
    show(sent, &mut shown)?;
    if !recorded.is_empty() {
        shown.push(b'+')?;
        show(recorded, &mut shown)?;
    }
    Ok(shown)
}

// What comes of a run with these words, over this input and these answers.
pub fn told<R>(
    rt: &R,
    alloc: Global,
    words: &[&str],
    answers: &[Ask],
    input: &[u8],
    streams: Streams,
) -> Result<Vec<u8>, AllocError>
where
    R: Net<Listener = TcpListener, Stream = TcpStream> + Clock + Wait + Threads + Sync,
{
    let mut source = MemSource::new(alloc, input, streams.read.max(1), &[streams.read_fails])?;
    let told = told_from(rt, alloc, words, answers, &mut source, streams);
    drop(source);
    told
}

// The same over this source.
fn told_from<R>(
    rt: &R,
    alloc: Global,
    words: &[&str],
    answers: &[Ask],
    source: &mut MemSource,
    streams: Streams,
) -> Result<Vec<u8>, AllocError>
where
    R: Net<Listener = TcpListener, Stream = TcpStream> + Clock + Wait + Threads + Sync,
{
    let mut records = MemSink::new(
        alloc,
        4096,
        streams.write.max(1),
        &[streams.record_fails],
        &[],
    )?;
    let told = told_with(rt, alloc, words, answers, source, streams, &mut records);
    drop(records);
    told
}

// And with these records.
fn told_with<R>(
    rt: &R,
    alloc: Global,
    words: &[&str],
    answers: &[Ask],
    source: &mut MemSource,
    streams: Streams,
    records: &mut MemSink,
) -> Result<Vec<u8>, AllocError>
where
    R: Net<Listener = TcpListener, Stream = TcpStream> + Clock + Wait + Threads + Sync,
{
    let whole = source.left().len();
    let mut sink = MemSink::new(
        alloc,
        4096,
        streams.write.max(1),
        &[streams.write_fails],
        &[streams.sync_fails],
    )?;
    let status = status_of(
        rt,
        alloc,
        words,
        source,
        records,
        &mut sink,
        answers,
        streams.reach_fails,
    );
    let left = left_of(source.left().len(), whole);
    let told = shown(alloc, status, left, sink.sent(), records.sent());
    drop(sink);
    told
}

// A run comes to what is due.
pub fn comes_to<R>(
    rt: &R,
    alloc: Global,
    words: &[&str],
    answers: &str,
    input: &str,
    streams: Streams,
    due: &str,
) -> Result<(), AllocError>
where
    R: Net<Listener = TcpListener, Stream = TcpStream> + Clock + Wait + Threads + Sync + Abort,
{
    let answers = asks_of(alloc, answers)?;
    let bytes = spelled(alloc, input)?;
    let told = told(
        rt,
        alloc,
        words,
        answers.as_slice(),
        bytes.as_slice(),
        streams,
    )?;
    assert!(rt; told.as_slice() == due.as_bytes(), "{input} -> {due}");
    Ok(())
}

// Each row is an input, ` -> ` and what comes of a run with these words.
pub fn play<R>(
    rt: &R,
    alloc: Global,
    words: &[&str],
    streams: Streams,
    rows: &str,
) -> Result<(), AllocError>
where
    R: Net<Listener = TcpListener, Stream = TcpStream> + Clock + Wait + Threads + Sync + Abort,
{
    for row in rows.lines() {
        let (input, due) = row.split_once(" -> ").unwrap_or(("", "two columns"));
        comes_to(rt, alloc, words, "", input, streams, due)?;
    }
    Ok(())
}

// The numbers of the read and of the write that fail, and what a run with these words comes to over this input.
pub fn play_faults<R>(
    rt: &R,
    alloc: Global,
    words: &[&str],
    input: &str,
    faults: &[(u64, u64, &str)],
) -> Result<(), AllocError>
where
    R: Net<Listener = TcpListener, Stream = TcpStream> + Clock + Wait + Threads + Sync + Abort,
{
    for (read_fails, write_fails, due) in faults {
        let streams = Streams {
            read_fails: *read_fails,
            write_fails: *write_fails,
            ..pieces(7, 1)
        };
        comes_to(rt, alloc, words, "", input, streams, due)?;
    }
    Ok(())
}
