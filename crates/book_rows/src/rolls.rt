//! Sessions that begin by a roll of a book.
ghost use Rattle.std.specs.Prelude.{◌≡◌, ◌≤◌, All, false, true};
ghost use Rattle.policy_history.specs.PolicyTexts.{front};
ghost use Rattle.policy_history.specs.Values.{entry_trees, greatest_of};
ghost use Rattle.policy_book.specs.Books.{head_of, trees_of};

use crate::plays::front_of;
use journal_text::read_policy;
use nx_io::{MemSink, Reach};
use policy_book::{Book, NalMatter};
use policy_history::Journal;
use std::alloc::{AllocError, Global};
use verdict_words::{Board, Pass, Roll};

// Meets two passes, each in a list of its own, and those of a roll. The session and the point of each of the two.
fn settled(
    alloc: Global,
    board: &Board<NalMatter>,
    book: &mut Book<MemSink>,
    one: Pass<NalMatter>,
    two: Pass<NalMatter>,
    roll: Roll<NalMatter>,
) -> Result<[[u64; 2]; 2], AllocError>
    requires opened { book.old.is_open ≡ true }
    requires board { book.old.board ≡ board.now }
    requires passes { (one.board ≡ board.now) × (two.board ≡ board.now) }
    requires roll { All (λ pass. pass.board ≡ board.now) roll }
{
    let lists = Vec::from_array(
        alloc,
        [
            Vec::from_array(alloc, [one])?,
            Vec::from_array(alloc, [two])?,
        ],
    )?;
    let rolls = Vec::from_array(alloc, [roll])?;
    let lists = book.settle(board, lists, rolls);
    let mut found = [[0u64; 2]; 2];
    for (slot, list) in found.iter_mut().zip(lists.as_slice()) {
        if let Some(pass) = list.as_slice().first() {
            *slot = [pass.session(), pass.at()];
        }
    }
    Ok(found)
}

// Three sessions are enrolled, and two begin. How many the roll has left then; and the session and the point of both once they
// were met with the roll.
fn begun(
    alloc: Global,
    board: &Board<NalMatter>,
    book: &mut Book<MemSink>,
) -> Result<String, AllocError>
    requires opened { book.old.is_open ≡ true }
    requires board { book.old.board ≡ board.now }
    requires room { book.old.next ≤ 1001 }
{
    let mut roll = book.enroll(alloc, board, 3)?;
    let Some(one) = roll.next() else {
        return Err(AllocError);
    };
    let Some(two) = roll.next() else {
        return Err(AllocError);
    };
    let left = roll.len();
    let met = settled(alloc, board, book, one, two, roll)?;
    format!(in alloc; "{left} {met:?}")
}

// The same over a book that is opened first.
fn opened(
    alloc: Global,
    made: (Board<NalMatter>, Book<MemSink>),
    text: &[u8],
) -> Result<String, AllocError>
    requires closed { made.1.is_open ≡ false }
    requires unbroken { made.1.is_broken ≡ false }
    requires board { made.1.board ≡ made.0 }
    requires text { text.now ≡ front (head_of made.1) (trees_of made.1) }
    requires room { made.1.next ≤ 1001 }
{
    let (board, mut book) = made;
    let told = match book.open(text) {
        Reach::Ready => begun(alloc, &board, &mut book),
        Reach::Failed => Err(AllocError),
    };
    drop(book);
    drop(board);
    told
}

fn made(alloc: Global, journal: Journal, sink: MemSink, text: &[u8]) -> Result<String, AllocError>
    requires sessions { greatest_of (entry_trees journal.entries) ≤ 1000 }
    requires text { text.now ≡ front journal.head (entry_trees journal.entries) }
{
    match Book::make(alloc, journal, sink) {
        Ok(made) => opened(alloc, made, text),
        Err((journal, _, AllocError)) => {
            drop(journal);
            Err(AllocError)
        }
    }
}

// The same over the journal of a policy.
fn told(alloc: Global, policy: &[u8]) -> Result<String, AllocError> {
    let sink = MemSink::new(alloc, 100_000, 1, &[0], &[0])?;
    let Ok(journal) = read_policy(alloc, policy) else {
        return Err(AllocError);
    };
    match front_of(alloc, &journal) {
        Some(text) => made(alloc, journal, sink, text.as_slice()),
        None => {
            drop(journal);
            Err(AllocError)
        }
    }
}

const POLICY: &[u8] = b"nexus 2\nprincipal alice pa\nprincipal bob pb\n1 alice object f\nend\n";

#[test]
fn sessions_begin_by_a_roll(rt: HostRuntime) -> Result<(), AllocError> {
    let told = told(rt.alloc(), POLICY)?;
    assert_eq!(rt; told.as_str(), "1 [[2, 1], [3, 1]]");
    Ok(())
}
