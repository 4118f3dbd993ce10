// What no clause says of readers, writers and arguments: only what was given, and which faults were counted.
use answer_commands::answer_input;
use nal_rules::Verdict;
use nexus_run::{SystemArguments, texts, words_of_call};
use nx_io::{Discard, MemSource, Sink, Source, StdSink, StdSource};
use std::alloc::{AllocError, Global};
use std::env::FillError;
use std::io::{self, ErrorKind, Read, Write};
use std::mem;
use std::rt::Env;

const ALLOWED: &str =
    "nexus check 1\nsubject alice\nlabel alice says ok\ngoal alice says ok\nproof 1\n1 label : alice says ok\nend\n";

// A reader that answers by these letters, one a call: `i` and `o` are errors, interrupted and other, `w` is the whole input, `e` an end, and `x` this
// byte. Then no more comes.
#[derive(Drop)]
struct Scripted {
    letters: &'static str,
    calls: usize,
}

impl Read for Scripted {
    fn read(&mut self, buffer: &mut [u8]) -> io::Result<usize> {
        let letter = self.letters.as_bytes().get(self.calls);
        self.calls = self.calls.saturating_add(1);
        let part = match letter {
            Some(b'i') => return Err(io::Error::from(ErrorKind::Interrupted)),
            Some(b'o') => return Err(io::Error::from(ErrorKind::Other)),
            Some(b'w') => ALLOWED,
            Some(b'x') => "x",
            _ => "",
        };
        let count = part.len().min(buffer.len());
        buffer[..count].copy_from_slice(&part.as_bytes()[..count]);
        Ok(count)
    }
}

// A run of `check`.
fn check<S: Source, K: Sink>(alloc: Global, input: &mut S, output: &mut K) -> u8 {
    answer_input::<Verdict, S, K>(alloc, &(), input, output).status
}

// How often a run of `check` over such a reader found it failing, behind its status.
fn read_by(alloc: Global, letters: &'static str) -> (u8, u64) {
    let mut source = StdSource::new(Scripted { letters, calls: 0 });
    let status = check(alloc, &mut source, &mut Discard::new());
    let faults = source.faults();
    mem::forget(source);
    (status, faults)
}

// What comes after the end is not read: with it the first input would be refused.
const READERS: [(&str, u8, u64); 4] = [("wex", 0, 0), ("ow", 4, 1), ("iiw", 0, 0), ("iow", 4, 1)];

#[test]
fn a_reader_is_read_to_its_first_end_or_fault(rt: HostRuntime) -> Result<(), AllocError> {
    for (letters, status, faults) in READERS {
        assert_eq!(rt; read_by(rt.alloc(), letters), (status, faults));
    }
    Ok(())
}

// A writer that fails at its first call, and takes all that comes after.
#[derive(Drop)]
struct FailsOnce {
    error: ErrorKind,
    has_failed: bool,
}

impl Write for FailsOnce {
    fn write(&mut self, piece: &[u8]) -> io::Result<usize> {
        if self.has_failed {
            return Ok(piece.len());
        }
        self.has_failed = true;
        Err(io::Error::from(self.error))
    }

    fn flush(&mut self) -> io::Result<()> {
        Ok(())
    }
}

// The status of a run of `check` over a writer that fails so.
fn written_by(alloc: Global, error: ErrorKind) -> Result<u8, AllocError> {
    let mut source = MemSource::new(alloc, ALLOWED.as_bytes(), 7, &[])?;
    let mut sink = StdSink::new(FailsOnce {
        error,
        has_failed: false,
    });
    let status = check(alloc, &mut source, &mut sink);
    mem::forget(sink);
    Ok(status)
}

#[test]
fn a_write_that_fails_ends_the_program(rt: HostRuntime) -> Result<(), AllocError> {
    let alloc = rt.alloc();
    assert_eq!(rt; written_by(alloc, ErrorKind::BrokenPipe)?, 5);
    assert_eq!(rt; written_by(alloc, ErrorKind::Interrupted)?, 0);
    Ok(())
}

// A call with these arguments, the program's name first. A comma ends each, and `~` stands for the byte 255.
#[derive(Drop)]
struct Call<'a> {
    arguments: &'a str,
}

impl<'a> Env for Call<'a> {
    fn arg(&self, i: usize, buf: &mut [u8]) -> Result<usize, FillError> {
        let Some(argument) = self.arguments.split_terminator(',').nth(i) else {
            return Err(FillError::NotPresent);
        };
        let bytes: &[u8] = if argument == "~" {
            b"\xff"
        } else {
            argument.as_bytes()
        };
        if bytes.len() > buf.len() {
            return Err(FillError::TooLong);
        }
        buf[..bytes.len()].copy_from_slice(bytes);
        Ok(bytes.len())
    }

    fn var(&self, _name: &str, _buf: &mut [u8]) -> Result<usize, FillError> {
        Err(FillError::NotPresent)
    }

    fn var_at(&self, _i: usize, _buf: &mut [u8]) -> Result<usize, FillError> {
        Err(FillError::NotPresent)
    }
}

// The words of such a call, each ended by a comma, or `nothing` where there are none.
fn words_told(alloc: Global, arguments: &str) -> Result<String, AllocError> {
    let call = Call { arguments };
    let words = words_of_call(alloc, &mut SystemArguments::new(&call))?;
    let mut told = String::new(alloc);
    match texts(alloc, words.as_slice())? {
        Some(texts) => {
            if texts.is_empty() {
                told.push_str("nothing")?;
            }
            for text in texts.as_slice() {
                told.push_str(text)?;
                told.push(',')?;
            }
        }
        None => told.push_str("no texts")?,
    }
    Ok(told)
}

// The program's name is any bytes.
const CALLS: &str = "nexus,check, -> check,
~,check, -> check,
,check, -> check,
nexus, -> nothing
 -> nothing
nexus,check,, -> check,,
nexus,check,~, -> no texts";

#[test]
fn all_words_after_the_name_count(rt: HostRuntime) -> Result<(), AllocError> {
    let alloc = rt.alloc();
    for row in CALLS.lines() {
        let (arguments, due) = row.split_once(" -> ").unwrap_or(("", "two columns"));
        let told = words_told(alloc, arguments)?;
        assert_eq!(rt; told.as_str(), due, "{row}");
    }
    Ok(())
}
