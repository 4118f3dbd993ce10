//! How a change is written.
ghost use Rattle.std.specs.Prelude.{◌≡◌, ◌<◌, length};
ghost use Rattle.policy_book.specs.Books.{entry_of};
ghost use Rattle.policy_book.specs.Writes.{IsLineFor};

use crate::told::Told;
use journal_text::{event_of, policy_line, read_request};
use policy_book::{BookAccess, NalMatter};
use policy_history::{Event, Head};
use std::alloc::{AllocError, Global};
use verdict_words::{Board, Pass};

/// Writes the change that a request line asks for.
pub fn change<B: BookAccess>(
    alloc: Global,
    book: &mut B,
    board: &Board<NalMatter>,
    head: &Head,
    pass: Pass<NalMatter>,
    principal: u32,
    line: &str,
) -> (Pass<NalMatter>, Told)
    requires board { B.board book.old ≡ board.now }
    requires head { head.now ≡ board.now.origin.setting }
    requires principal { principal < length board.now.origin.setting.principals }
    requires pass { pass.board ≡ board.now }
    ensures pass { result.0.board ≡ board.now }
    ensures book { B.board book.new ≡ B.board book.old }
{
    match event_in(alloc, line) {
        Some(event) => change_to(alloc, book, board, head, pass, principal, event),
        None => (pass, Told::NoMemory),
    }
}

// The event that a request line asks for. None where it asks for none, or there is no memory.
fn event_in(alloc: Global, line: &str) -> Option<Event> {
    match read_request(alloc, line.as_bytes()) {
        Ok(request) => {
            let event = event_of(alloc, &request);
            drop(request);
            event.unwrap_or(None)
        }
        Err(_) => None,
    }
}

fn change_to<B: BookAccess>(
    alloc: Global,
    book: &mut B,
    board: &Board<NalMatter>,
    head: &Head,
    pass: Pass<NalMatter>,
    principal: u32,
    event: Event,
) -> (Pass<NalMatter>, Told)
    requires board { B.board book.old ≡ board.now }
    requires head { head.now ≡ board.now.origin.setting }
    requires principal { principal < length board.now.origin.setting.principals }
    requires pass { pass.board ≡ board.now }
    ensures pass { result.0.board ≡ board.now }
    ensures book { B.board book.new ≡ B.board book.old }
{
    let name = head.principals.name(principal);
    match policy_line(alloc, pass.session(), name, &event) {
        Ok(line) => write(book, board, pass, principal, event, line.as_slice()),
        Err(AllocError) => {
            drop(event);
            (pass, Told::NoMemory)
        }
    }
}

fn write<B: BookAccess>(
    book: &mut B,
    board: &Board<NalMatter>,
    pass: Pass<NalMatter>,
    principal: u32,
    event: Event,
    line: &[u8],
) -> (Pass<NalMatter>, Told)
    requires board { B.board book.old ≡ board.now }
    requires principal { principal < length board.now.origin.setting.principals }
    requires pass { pass.board ≡ board.now }
    requires line { IsLineFor board.now.origin.setting (entry_of pass.session principal event) line.now }
    ensures pass { result.0.board ≡ board.now }
    ensures book { B.board book.new ≡ B.board book.old }
{
    let (pass, written) = book.write(pass, principal, event, line);
    (pass, Told::Written(written))
}
