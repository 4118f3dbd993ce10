// The loop over a table of texts. A table has parts, with an empty line between; each has a title, and then rows. A row stands on one
// line: what is tried, an arrow, and what it comes to.
use crate::devices::{links, logs, streams};
use crate::{frames, guarding};
use std::alloc::{AllocError, Global};
use std::net::{Net, TcpListener, TcpStream};
use std::process::Abort;
use std::rt::Clock;

// What a row comes to, by what it tries.
fn told<R: Net<Listener = TcpListener, Stream = TcpStream> + Clock>(
    rt: &R,
    alloc: Global,
    kind: &str,
    input: &str,
) -> Result<String, AllocError> {
    match kind {
        "devices" => streams::told(alloc, input),
        "syncs" => streams::synced_by(alloc, input),
        "reader" => streams::read_by(alloc, input),
        "writer" => streams::written_by(alloc, input),
        "link" => links::told(alloc, input),
        "log" => logs::told(rt, alloc, input),
        "requests" => frames::requests_told(alloc, input),
        "cut requests" => frames::cut_told(alloc, input),
        "failing requests" => frames::failing_told(alloc, input),
        "request" => frames::request_told(alloc, input),
        "reply" => frames::reply_told(alloc, input),
        "cut reply" => frames::reply_cut_told(alloc, input),
        "guard" => guarding::told(rt, alloc, input),
        _ => Err(AllocError),
    }
}

// The first row that comes to something else, with what it comes to. Nothing where there is none.
fn first_other<R: Net<Listener = TcpListener, Stream = TcpStream> + Clock>(
    rt: &R,
    alloc: Global,
    kind: &str,
    rows: &str,
) -> Result<String, AllocError> {
    for row in rows.lines() {
        let (input, wanted) = row.split_once(" -> ").unwrap_or((row, "two columns"));
        let told = told(rt, alloc, kind, input)?;
        if told.as_str() != wanted {
            return format!(in alloc; "{input} -> {told}");
        }
    }
    Ok(String::new(alloc))
}

// Asserts that each row comes to what stands behind its arrow.
pub fn hold<R>(rt: &R, alloc: Global, kind: &str, rows: &str) -> Result<(), AllocError>
where
    R: Net<Listener = TcpListener, Stream = TcpStream> + Clock + Abort,
{
    let other = first_other(rt, alloc, kind, rows)?;
    assert_eq!(rt; other.as_str(), "");
    Ok(())
}
