// A log over a wire to a keeper in memory: what goes over the wire, and what its calls come to.
use crate::tables::hold;
use crate::texts::{number, text_of};
use line_log::{LineLog, Log, MemWire};
use nx_io::Sink;
use std::alloc::{AllocError, Global};
use std::net::{Net, TcpListener, TcpStream};

// What these calls come to over a keeper that has room for so many lines, then what was sent to it, how many lines were kept, and how often
// the log has failed. A stroke stands for a line feed.
pub fn told<R: Net<Listener = TcpListener, Stream = TcpStream>>(
    rt: &R,
    alloc: Global,
    row: &str,
) -> Result<String, AllocError> {
    let (room, calls) = row.split_once(": ").unwrap_or(("", row));
    let wire = MemWire::new(alloc, number(room) as u64);
    let mut log = LineLog::new(alloc, wire);
    let mut told = String::new(alloc);
    for call in calls.split(',') {
        let answer = match call {
            "reach" => format!(in alloc; "{:?},", log.reach(rt, b"keeper"))?,
            "sync" => format!(in alloc; "{:?},", log.sync())?,
            _ => written(alloc, &mut log, call)?,
        };
        told.push_str(answer.as_str())?;
    }
    let sent = with(alloc, log.wire().requests(), b'\n', b'/')?;
    let (count, faults) = (log.count(), log.faults());
    format!(in alloc; "{told} {}; {count} {faults}", text_of(sent.as_slice()))
}

fn written(alloc: Global, log: &mut LineLog<MemWire>, piece: &str) -> Result<String, AllocError> {
    let piece = with(alloc, piece.as_bytes(), b'/', b'\n')?;
    if piece.is_empty() {
        return Err(AllocError);
    }
    format!(in alloc; "{:?},", log.write(piece.as_slice()))
}

// These bytes with one of them in place of another.
fn with(alloc: Global, bytes: &[u8], old: u8, new: u8) -> Result<Vec<u8>, AllocError> {
    let mut changed = Vec::new(alloc);
    for byte in bytes {
        changed.push(if *byte == old { new } else { *byte })?;
    }
    Ok(changed)
}

// The lines of the first write are those of the opening text, and each later line is a change. The one that ends a text goes nowhere. Where
// a line is not kept, those behind it are not sent, nor any later one, where the keeper is reached again too. Before it was reached none is.
const LOGS: &str =
    "9: reach,nexus 2/principal a b/,1 a object f/,end/,sync -> Ready,Bytes(22),Bytes(13),Bytes(4),Ready, have 1 nexus 2/have 2 principal a b/put 3 1 a object f/; 3 0
1: reach,a/b/c/,d/,sync -> Ready,Bytes(2),Failed,Ready, have 1 a/have 2 b/; 1 1
0: reach,a/b/,c/ -> Ready,Failed,Failed, have 1 a/; 0 2
9: a/,reach,b/ -> Failed,Ready,Failed, ; 0 2
9: reach,a/,reach,b/ -> Ready,Bytes(2),Ready,Bytes(2), have 1 a/put 2 b/; 2 0
1: reach,a/b/,reach,c/ -> Ready,Bytes(2),Ready,Failed, have 1 a/have 2 b/; 1 1
9: reach,ab,c/ -> Ready,Failed,Failed, ; 0 2
9: reach,a/b,c/ -> Ready,Bytes(2),Failed, have 1 a/; 1 1
9: reach,end/,a/end/b/ -> Ready,Bytes(4),Bytes(8), put 1 a/put 2 b/; 2 0
9: reach,a/ end/end / -> Ready,Bytes(12), have 1 a/have 2  end/have 3 end /; 3 0";

#[test]
fn a_log_hands_on_whole_lines_until_one_is_lost(rt: HostRuntime) -> Result<(), AllocError> {
    hold(&rt, rt.alloc(), "log", LOGS)
}
