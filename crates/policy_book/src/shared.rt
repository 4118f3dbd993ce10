//! A book that threads share.
ghost use Rattle.std.specs.Prelude.{◌≡◌, ◌<◌, true};
ghost use Rattle.policy_book.specs.Books.{IsNamed};

use crate::book::Book;
use crate::naming::BookNaming;
use crate::shelf::Shelf;
use crate::turns::Turn;
use nx_io::Sink;
use std::sync::ledger::{Blank, Ledger};
use std::sync::{Mutex, ledger};

/// An open book behind two locks. The writer's lock is held by whoever makes a change, while its line is written and synced. The
/// journal's lock is held for no input or output; a case is copied and a pass is met under it alone, so these wait for no disk.
/// Whoever takes both takes the writer's first.
///
/// The type says which book it is. One ledger counts the changes that were answered that they were not recorded: where there is
/// one, the book is broken. The other one says whether a writer has the book's sink.
#[derive(Drop)]
pub struct SharedBook<K: Sink, N: BookNaming, T: Ledger, W: Ledger> {
    pub(crate) writing: Mutex<Turn<W>>,
    pub(crate) shelf: Mutex<Shelf<K, N, T, W>>,
}

impl<K: Sink, N: BookNaming, T: Ledger, W: Ledger> SharedBook<K, N, T, W> {
    /// Puts the book that the parameter names behind its locks, with a ledger in which nothing was counted, and a blank one.
    pub fn new(book: Book<K>, tickets: ledger::Book<T>, turns: Blank) -> SharedBook<K, N, T, W>
        requires opened { book.is_open ≡ true }
        requires named { IsNamed N.board N.next N.start N.start_faults book }
        requires unused { tickets.total ≡ 0 }
        requires turns { (turns.name ≡ W.name) × (turns.parts ≡ W.parts) × (0 < W.parts) }
    {
        let (turns, share) = turns.open::<W>();
        SharedBook {
            writing: Mutex::new(Turn { share }),
            shelf: Mutex::new(Shelf::new(book, tickets, turns)),
        }
    }

    /// The book, and the ledger: where a change was answered that it was not recorded, the book is broken.
    pub fn into_parts(self) -> (Book<K>, ledger::Book<T>)
        ensures opened { result.0.is_open ≡ true }
        ensures named { IsNamed N.board N.next N.start N.start_faults result.0 }
        ensures failed { 0 < result.1.total → result.0.is_broken ≡ true }
    {
        let SharedBook { writing, shelf } = self;
        shelf.into_inner().into_parts(writing.into_inner())
    }
}
