//! The loop over a table of texts. A table has parts, with an empty line between; each has a title, and then rows. A row stands on
//! one line: what is tried, an arrow, and what it comes to; a bar stands for a line feed.
use crate::{plays, sessions};
use std::alloc::{AllocError, Global};
use std::net::{Net, TcpListener, TcpStream};
use std::process::Abort;
use std::rt::Clock;
use std::sync::Wait;
use text_lines::read_number;

// What a row comes to, by what it tries: sessions over a journal, one after another; a session whose link is cut at each byte of a
// range; or three sessions over a board.
fn told<R: Net<Listener = TcpListener, Stream = TcpStream> + Clock + Wait>(
    rt: &R,
    alloc: Global,
    call: &str,
    input: &str,
) -> Result<String, AllocError> {
    match call {
        "serve" => sessions::told(rt, alloc, input),
        "cut" => sessions::cut(rt, alloc, input),
        "play" => plays::told(rt, alloc, input),
        _ => Err(AllocError),
    }
}

// The first of these rows that does not begin with what stands behind its arrow, with what it comes to. Nothing where there is
// none.
fn first_other_of<R: Net<Listener = TcpListener, Stream = TcpStream> + Clock + Wait>(
    rt: &R,
    alloc: Global,
    call: &str,
    rows: &str,
) -> Result<String, AllocError> {
    for row in rows.lines() {
        let row = row.replace(alloc, '|', "\n")?;
        let (input, wanted) = row
            .as_str()
            .split_once(" -> ")
            .unwrap_or((row.as_str(), "?"));
        let told = told(rt, alloc, call, input)?;
        if !told.as_str().starts_with(wanted) {
            return format!(in alloc; "{input} -> {told}");
        }
    }
    Ok(String::new(alloc))
}

// As `first_other_of`, of a table, with the title above the row.
fn first_other<R: Net<Listener = TcpListener, Stream = TcpStream> + Clock + Wait>(
    rt: &R,
    alloc: Global,
    table: &str,
) -> Result<String, AllocError> {
    for part in table.split("\n\n") {
        let (title, rows) = part.split_once("\n").unwrap_or((part, "no row"));
        let (call, _) = title.split_once(": ").unwrap_or(("", ""));
        let other = first_other_of(rt, alloc, call, rows)?;
        if !other.is_empty() {
            return format!(in alloc; "{title}: {other}");
        }
    }
    Ok(String::new(alloc))
}

/// Asserts that each row of a table comes to what stands behind its arrow.
pub fn holds<R: Net<Listener = TcpListener, Stream = TcpStream> + Clock + Wait + Abort>(
    rt: &R,
    alloc: Global,
    table: &str,
) -> Result<(), AllocError> {
    let other = first_other(rt, alloc, table)?;
    assert_eq!(rt; other.as_str(), "");
    Ok(())
}

/// The number that a text writes, or 0.
pub fn number(text: &str) -> u64 {
    read_number(text.as_bytes()).unwrap_or(0)
}
