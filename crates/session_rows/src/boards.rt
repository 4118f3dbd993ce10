//! A board of a policy, and its open book over a sink in memory.
ghost use Rattle.std.specs.Prelude.{◌≡◌, ◌<◌, ◌-◌, IfSome, false, length, take, true};
ghost use Rattle.policy_history.specs.PolicyTexts.{front};
ghost use Rattle.policy_history.specs.Values.{entry_trees, greatest_of};
ghost use Rattle.policy_book.specs.Books.{head_of, trees_of};

use journal_text::{print_policy, read_policy};
use nx_io::{MemSink, Reach};
use policy_book::{Book, NalMatter};
use policy_history::Journal;
use std::alloc::{AllocError, Global};
use verdict_words::Board;

/// The board of a policy and its open book, over this sink. None where there is no memory, the text is no policy, its sessions
/// have greater numbers, or the sink fails.
pub fn board_of(
    alloc: Global,
    policy: &[u8],
    sink: MemSink,
) -> Option<(Board<NalMatter>, Book<MemSink>)>
    ensures opened { IfSome result (λ made. made.1.is_open ≡ true) }
    ensures board { IfSome result (λ made. made.1.board ≡ made.0) }
    ensures next { IfSome result (λ made. made.1.next < 2000) }
{
    match read_policy(alloc, policy) {
        Ok(journal) => board_of_journal(alloc, journal, sink),
        Err(_) => None,
    }
}

fn board_of_journal(
    alloc: Global,
    journal: Journal,
    sink: MemSink,
) -> Option<(Board<NalMatter>, Book<MemSink>)>
    ensures opened { IfSome result (λ made. made.1.is_open ≡ true) }
    ensures board { IfSome result (λ made. made.1.board ≡ made.0) }
    ensures next { IfSome result (λ made. made.1.next < 2000) }
{
    match front_of(alloc, &journal) {
        Some(text) => board_of_front(alloc, journal, text.as_slice(), sink),
        None => {
            drop(journal);
            None
        }
    }
}

// The text of a journal without its last line, where its sessions have small numbers.
fn front_of(alloc: Global, journal: &Journal) -> Option<Vec<u8>>
    ensures text { IfSome result (λ text. text.items ≡ front journal.now.head (entry_trees journal.now.entries)) }
    ensures sessions { IfSome result (λ _. greatest_of (entry_trees journal.now.entries) < 1000) }
{
    if journal.greatest_session() >= 1000 {
        return None;
    }
    match print_policy(alloc, journal) {
        Ok(text) => without_end(alloc, text.as_slice()),
        Err(AllocError) => None,
    }
}

// A text without its last four bytes.
fn without_end(alloc: Global, text: &[u8]) -> Option<Vec<u8>>
    ensures { IfSome result (λ front. front.items ≡ take (length text.now - 4) text.now) }
{
    let count = text.len().saturating_sub(4);
    Vec::from_slice(alloc, &text[..count]).ok()
}

fn board_of_front(
    alloc: Global,
    journal: Journal,
    text: &[u8],
    sink: MemSink,
) -> Option<(Board<NalMatter>, Book<MemSink>)>
    requires sessions { greatest_of (entry_trees journal.entries) < 1000 }
    requires text { text.now ≡ front journal.head (entry_trees journal.entries) }
    ensures opened { IfSome result (λ made. made.1.is_open ≡ true) }
    ensures board { IfSome result (λ made. made.1.board ≡ made.0) }
    ensures next { IfSome result (λ made. made.1.next < 2000) }
{
    match Book::make(alloc, journal, sink) {
        Ok(made) => opened(made, text),
        Err((journal, _, AllocError)) => {
            drop(journal);
            None
        }
    }
}

fn opened(
    made: (Board<NalMatter>, Book<MemSink>),
    text: &[u8],
) -> Option<(Board<NalMatter>, Book<MemSink>)>
    requires closed { made.1.is_open ≡ false }
    requires unbroken { made.1.is_broken ≡ false }
    requires text { text.now ≡ front (head_of made.1) (trees_of made.1) }
    requires board { made.1.board ≡ made.0 }
    requires next { made.1.next < 2000 }
    ensures opened { IfSome result (λ made. made.1.is_open ≡ true) }
    ensures board { IfSome result (λ made. made.1.board ≡ made.0) }
    ensures next { IfSome result (λ made. made.1.next < 2000) }
{
    let (board, mut book) = made;
    match book.open(text) {
        Reach::Ready => Some((board, book)),
        Reach::Failed => {
            drop(book);
            drop(board);
            None
        }
    }
}
