// Sources and sinks: generic code over each, and the answers of single calls.
use crate::tables::hold;
use crate::texts::{letters, number, numbers, text_of};
use nx_io::{
    Bytes, Discard, Got, MemSink, MemSource, Put, Reach, Sink, Source, StdSink, StdSource, send_all,
};
use std::alloc::{AllocError, Global};
use std::io::{self, ErrorKind, Read, Write};

// Sends on what a source gives, in at most so many reads, and reads again after a fault.
fn forward<S: Source, K: Sink>(source: &mut S, sink: &mut K, reads: u64) -> Reach {
    let mut buffer = [0; 16];
    for _ in 0..reads {
        match source.read(&mut buffer) {
            Got::Bytes(count) => match send_all(sink, &buffer[..count]) {
                Reach::Ready => {}
                Reach::Failed => return Reach::Failed,
            },
            Got::End => return Reach::Ready,
            Got::Failed => {}
        }
    }
    Reach::Failed
}

// Sources in memory by what they give, how many bytes go in a read and the reads that fail, and sinks by their room, how many bytes
// go in a write and the writes that fail. How far sending on comes, what is sent, how many bytes are left, and how often the source
// fails, and the sink.
// Pieces of both, and the second read fails; one byte a call, and the fifth call fails after four bytes; no room for the last three
// bytes; nothing to send, and the first read fails.
const DEVICES: &str = "abcdefgh 8 - 8 8 - -> Ready abcdefgh 0 0 0
abcdefgh 3 2 8 2 - -> Ready abcdefgh 0 1 0
abcdefgh 8 - 8 1 5 -> Failed abcd 0 0 1
abcdefgh 8 - 5 8 - -> Failed abcde 0 0 1
- 8 1 8 8 - -> Ready  0 1 0";

pub fn told(alloc: Global, row: &str) -> Result<String, AllocError> {
    let words: Vec<&str> = row.split(' ').collect(alloc)?;
    match words.as_slice() {
        [left, read, reads, room, write, writes] => {
            told_of_source(
                alloc,
                left,
                (number(read), reads),
                number(room),
                (number(write), writes),
            )
        }
        _ => String::from_str(alloc, "no devices"),
    }
}

fn told_of_source(
    alloc: Global,
    left: &str,
    (piece, fails): (usize, &str),
    room: usize,
    sink: (usize, &str),
) -> Result<String, AllocError> {
    let fails = numbers(alloc, fails)?;
    match MemSource::new(alloc, letters(left), piece.max(1), fails.as_slice()) {
        Ok(mut source) => {
            let told = told_of_sink(alloc, &mut source, room, sink);
            drop(source);
            told
        }
        Err(AllocError) => Err(AllocError),
    }
}

fn told_of_sink(
    alloc: Global,
    source: &mut MemSource,
    room: usize,
    (piece, fails): (usize, &str),
) -> Result<String, AllocError> {
    let fails = numbers(alloc, fails)?;
    match MemSink::new(alloc, room, piece.max(1), fails.as_slice(), &[]) {
        Ok(mut sink) => {
            let told = sent_on(alloc, source, &mut sink);
            drop(sink);
            told
        }
        Err(AllocError) => Err(AllocError),
    }
}

fn sent_on(
    alloc: Global,
    source: &mut MemSource,
    sink: &mut MemSink,
) -> Result<String, AllocError> {
    let reach = forward(source, sink, 16);
    let (sent, left) = (text_of(sink.sent()), source.left().len());
    let (reads, writes) = (source.faults(), sink.faults());
    format!(in alloc; "{reach:?} {sent} {left} {reads} {writes}")
}

#[test]
fn memory_devices_send_on_and_fail_where_they_are_told(rt: HostRuntime) -> Result<(), AllocError> {
    hold(&rt, rt.alloc(), "devices", DEVICES)
}

/// What these calls over a sink in memory come to, each with how many bytes the last sync covers and how often the sink has failed:
/// `sync`, and `send` of all bytes of a word. The sink has so much room, takes two bytes a write, and fails at these writes and these
/// syncs.
pub fn synced_by(alloc: Global, row: &str) -> Result<String, AllocError> {
    let (sink, calls) = row.split_once(": ").unwrap_or(("", row));
    let words: Vec<&str> = sink.split(' ').collect(alloc)?;
    match words.as_slice() {
        [room, fails, syncs] => told_of_syncs(alloc, number(room), (fails, syncs), calls),
        _ => String::from_str(alloc, "no sink"),
    }
}

fn told_of_syncs(
    alloc: Global,
    room: usize,
    (fails, syncs): (&str, &str),
    calls: &str,
) -> Result<String, AllocError> {
    let fails = numbers(alloc, fails)?;
    let syncs = numbers(alloc, syncs)?;
    match MemSink::new(alloc, room, 2, fails.as_slice(), syncs.as_slice()) {
        Ok(mut sink) => {
            let told = calls_told(alloc, &mut sink, calls);
            drop(sink);
            told
        }
        Err(AllocError) => Err(AllocError),
    }
}

fn calls_told(alloc: Global, sink: &mut MemSink, calls: &str) -> Result<String, AllocError> {
    let mut told = String::new(alloc);
    for call in calls.split(',') {
        let reach = match call.split_once(' ') {
            Some((_, piece)) => send_all(sink, piece.as_bytes()),
            None => sink.sync(),
        };
        let (synced, faults) = (sink.synced(), sink.faults());
        push(&mut told, format!(in alloc; "{reach:?} {synced} {faults},"))?;
    }
    Ok(told)
}

// A sync that fails leaves what was covered before, and the next one covers all; what a failing write has sent is covered too; writes
// and syncs are counted apart.
const SYNCS: &str =
    "8 - 2: send abc,sync,send de,sync,send f,sync -> Ready 0 0,Ready 3 0,Ready 3 0,Failed 3 1,Ready 3 1,Ready 6 1,
3 - -: sync,send abcd,sync -> Ready 0 0,Failed 0 1,Ready 3 1,
8 1 1: send ab,sync,send ab,sync -> Failed 0 1,Failed 0 2,Ready 0 2,Ready 2 2,";

#[test]
fn a_sync_covers_what_was_sent(rt: HostRuntime) -> Result<(), AllocError> {
    hold(&rt, rt.alloc(), "syncs", SYNCS)
}

// A reader that answers by a script, a word a call: `other` and `interrupted` are errors, and any other word is what is read, of which
// an empty one is an end. Then no more comes.
#[derive(Drop)]
struct Scripted<'a> {
    script: &'a str,
    calls: usize,
}

impl<'a> Read for Scripted<'a> {
    fn read(&mut self, buffer: &mut [u8]) -> io::Result<usize> {
        let part = match self.script.split(',').nth(self.calls) {
            Some("other") => Err(io::Error::from(ErrorKind::Other)),
            Some("interrupted") => Err(io::Error::from(ErrorKind::Interrupted)),
            Some(part) => Ok(part.as_bytes()),
            None => Ok(b"".as_slice()),
        };
        self.calls = self.calls.saturating_add(1);
        let part = part?;
        let count = part.len().min(buffer.len());
        buffer[..count].copy_from_slice(&part[..count]);
        Ok(count)
    }
}

// A writer that answers by a script, a word a call: `broken` and `interrupted` are errors. Then it takes two bytes at most.
#[derive(Drop)]
struct Reluctant<'a> {
    script: &'a str,
    calls: usize,
}

impl<'a> Write for Reluctant<'a> {
    fn write(&mut self, piece: &[u8]) -> io::Result<usize> {
        let word = self.script.split(',').nth(self.calls);
        self.calls = self.calls.saturating_add(1);
        match word {
            Some("broken") => Err(io::Error::from(ErrorKind::BrokenPipe)),
            Some("interrupted") => Err(io::Error::from(ErrorKind::Interrupted)),
            _ => Ok(piece.len().min(2)),
        }
    }

    fn flush(&mut self) -> io::Result<()> {
        Ok(())
    }
}

/// What so many reads of four bytes at most by a script come to, each with how often the source has failed.
pub fn read_by(alloc: Global, row: &str) -> Result<String, AllocError> {
    let (count, script) = row.split_once(' ').unwrap_or(("", ""));
    let mut source = StdSource::new(Scripted { script, calls: 0 });
    let mut told = String::new(alloc);
    for _ in 0..number(count) {
        let got = source.read(&mut [0; 4]);
        push(&mut told, format!(in alloc; "{got:?} {},", source.faults()))?;
    }
    Ok(told)
}

fn push(told: &mut String, text: Result<String, AllocError>) -> Result<(), AllocError> {
    let text = text?;
    told.push_str(text.as_str())
}

/// What these calls over a script come to, each with how often the sink has failed: `send` is of all bytes of a word, and `write` one
/// write of them.
pub fn written_by(alloc: Global, row: &str) -> Result<String, AllocError> {
    let (script, calls) = row.split_once(": ").unwrap_or(("", row));
    let mut sink = StdSink::new(Reluctant { script, calls: 0 });
    let mut told = String::new(alloc);
    for call in calls.split(',') {
        push(&mut told, call_told(alloc, &mut sink, call))?;
    }
    Ok(told)
}

fn call_told(
    alloc: Global,
    sink: &mut StdSink<Reluctant>,
    call: &str,
) -> Result<String, AllocError> {
    match call.split_once(' ') {
        Some(("send", piece)) => {
            let reach = send_all(sink, piece.as_bytes());
            format!(in alloc; "{reach:?} {},", sink.faults())
        }
        Some(("write", piece)) if !piece.is_empty() => {
            let put = sink.write(piece.as_bytes());
            format!(in alloc; "{put:?} {},", sink.faults())
        }
        _ => Err(AllocError),
    }
}

// No clause can say that the reader of std has failed: only that a fault was counted, and once. A call that a signal interrupts is no
// fault. A terminal gives bytes again after its end was told.
const READERS: &str = "3 other,ab -> Failed 1,Bytes(2) 1,End 1,
1 interrupted,interrupted,ab -> Bytes(2) 0,
3 ab,,cd -> Bytes(2) 0,End 0,Bytes(2) 0,";

#[test]
fn what_a_reader_gives_and_fails_is_told(rt: HostRuntime) -> Result<(), AllocError> {
    hold(&rt, rt.alloc(), "reader", READERS)
}

// A write that fails once is told and counted once.
const WRITERS: &str = "broken: send abcd,write abcd,send cd -> Failed 1,Bytes(2) 1,Ready 1,
interrupted,interrupted: write abcd -> Bytes(2) 0,";

#[test]
fn what_a_writer_takes_and_fails_is_told(rt: HostRuntime) -> Result<(), AllocError> {
    hold(&rt, rt.alloc(), "writer", WRITERS)
}

fn is_sent_on(written: &mut Vec<u8>) -> bool {
    let mut source = StdSource::new(b"some bytes".as_slice());
    let mut sink = StdSink::new(written);
    forward(&mut source, &mut sink, 4) == Reach::Ready
        && sink.sync() == Reach::Ready
        && source.faults() == 0
        && sink.faults() == 0
}

fn is_written(alloc: Global) -> bool {
    let mut written = Vec::new(alloc);
    is_sent_on(&mut written) && written.as_slice() == b"some bytes".as_slice()
}

#[test]
fn readers_and_writers_of_std_serve(rt: HostRuntime) {
    assert!(rt; is_written(rt.alloc()));
}

// A slice takes what it has room for, and then nothing.
fn is_filled(buffer: &mut [u8; 3]) -> bool {
    let mut full = StdSink::new(buffer.as_mut_slice());
    full.write(b"abcde") == Put::Bytes(3) && full.write(b"de") == Put::Failed && full.faults() == 1
}

#[test]
fn a_slice_takes_what_it_has_room_for(rt: HostRuntime) {
    assert!(rt; is_filled(&mut [0; 3]));
}

fn is_discarded(source: &mut MemSource) -> bool {
    let mut sink = Discard::new();
    forward(source, &mut sink, 16) == Reach::Ready
        && source.left().is_empty()
        && sink.write(b"abc") == Put::Bytes(3)
        && sink.sync() == Reach::Ready
}

#[test]
fn what_is_discarded_is_taken_whole(rt: HostRuntime) {
    let is_whole = match MemSource::new(rt.alloc(), b"abcdefgh", 3, &[2]) {
        Ok(mut source) => {
            let is_whole = is_discarded(&mut source);
            drop(source);
            is_whole
        }
        Err(AllocError) => false,
    };
    assert!(rt; is_whole);
}

fn is_extended(mut bytes: Bytes) -> bool {
    bytes.extend(b"cd").is_ok()
        && bytes.as_slice() == b"abcd".as_slice()
        && bytes.len() == 4
        && is_given_back(bytes)
}

fn is_given_back(bytes: Bytes) -> bool {
    Bytes::from_vec(bytes.into_vec()).as_slice() == b"abcd".as_slice()
}

#[test]
fn bytes_are_copied_extended_and_given_back(rt: HostRuntime) {
    assert!(rt; Bytes::new(rt.alloc()).is_empty());
    let are_right = match Bytes::of(rt.alloc(), b"ab") {
        Ok(bytes) => is_extended(bytes),
        Err(AllocError) => false,
    };
    assert!(rt; are_right);
}
