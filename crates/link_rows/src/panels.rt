// Panels and clocks as their callers meet them. What a call answers to a statement is what the documents state.
mod clocks;
mod in_memory;
mod over_tcp;

use authority_ask::{Ask, Panel};
use nal_parse::parse_formula;
use std::alloc::Global;
use std::net::{Net, TcpListener, TcpStream};
use std::process::Abort;
use std::rt::Clock as SystemClock;

// Asks a panel whether the statement of a text holds. A text of no statement is told as want of memory.
fn ask<P: Panel, R: Net<Listener = TcpListener, Stream = TcpStream> + SystemClock + Abort>(
    rt: &R,
    alloc: Global,
    panel: &mut P,
    port: u64,
    text: &[u8],
) -> Ask {
    match parse_formula(alloc, text) {
        Ok(statement) => panel.ask(rt, port, &statement),
        Err(_) => Ask::NoMemory,
    }
}

// Asks the same in turn, as often as there are answers due, each the first letter of one.
fn answers<P: Panel, R: Net<Listener = TcpListener, Stream = TcpStream> + SystemClock + Abort>(
    rt: &R,
    alloc: Global,
    panel: &mut P,
    (port, text): (u64, &[u8]),
    due: &str,
) -> bool {
    for letter in due.as_bytes() {
        if letter_of(ask(rt, alloc, panel, port, text)) != *letter {
            return false;
        }
    }
    true
}

const fn letter_of(answer: Ask) -> u8 {
    match answer {
        Ask::Yes => b'Y',
        Ask::No => b'N',
        Ask::Down => b'D',
        Ask::NoMemory => b'M',
    }
}
