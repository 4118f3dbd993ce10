//! What stands behind the journal's lock.
ghost use Rattle.std.specs.Prelude.{◌≡◌, ◌<◌, length, true, IfSome, Some};
ghost use Rattle.policy_history.specs.Events.{admitted};
ghost use Rattle.policy_history.specs.Values.{entry_trees};
ghost use Rattle.policy_book.specs.Access.{HasMet};
ghost use Rattle.policy_book.specs.Books.{IsNamed};
ghost use Rattle.policy_book.specs.Snaps.{IsSnap};

use crate::book::Book;
use crate::matter::NalMatter;
use crate::naming::BookNaming;
use crate::pens::Pen;
use crate::seated::SeatedJournal;
use crate::snapping::Snapped;
use crate::turns::Turn;
use nal_term::{Name, Secret};
use nx_io::Sink;
use std::alloc::Global;
use std::marker::{Model, PhantomData};
use std::sync::ledger;
use std::sync::ledger::Ledger;
use verdict_words::{Board, Pass};

/// An open book whose pen may be out: a writer takes it at his first visit, and puts it back at his second. The type says which
/// board the book is of, what its sink had sent when it was made, and that no pass is made any more; so whoever takes the lock
/// knows that much of what is there.
///
/// `tickets` counts the changes that were answered that they were not recorded: where there is one, the pen is there and broken.
/// `turns` counts nothing while the pen is there, and one more than the number of entries while it is out. The one share of it is
/// a writer's, so he knows at his first visit that the pen is there, and at his second that the journal is as he left it.
#[derive(Drop)]
pub(crate) struct Shelf<K: Sink, N: BookNaming, T: Ledger, W: Ledger> {
    pub(crate) seated: SeatedJournal,
    pub(crate) pen: Option<Pen<K>>,
    pub(crate) tickets: ledger::Book<T>,
    pub(crate) turns: ledger::Book<W>,
    of: PhantomData<N>,
}

impl<K: Sink, N: BookNaming, T: Ledger, W: Ledger> Model for Shelf<K, N, T, W> {
    ghost use Rattle.std.specs.Prelude.{◌≡◌, Some};
    ghost use Rattle.std.specs.Coded.{codes};
    ghost use Rattle.nal_term.specs.contracts.terms.Term as t;
    ghost use Rattle.nal_term.specs.contracts.formulas.Formula as f;
    ghost use Rattle.policy_book.specs.Inner.Kept.{IsShelved, ShelfValue};

    ghost Value = { ShelfValue K };

    ghost coded = { Prim.hlevel (codes, t.the_row.coded, f.the_row.coded) };

    ghost view = { λ s. record { seated = s.seated; pen = s.pen } };

    ghost invariant = { λ s. (N.board ≡ Some s.seated.board) × (N.next ≡ s.seated.next) × IsShelved K.sent K.synced K.faults N.start N.start_faults s.seated s.tickets.total s.turns.total s.pen };
}

impl<K: Sink, N: BookNaming, T: Ledger, W: Ledger> Shelf<K, N, T, W> {
    /// Puts the book that the parameter names on a shelf, with ledgers in which nothing was counted.
    pub(crate) fn new(
        book: Book<K>,
        tickets: ledger::Book<T>,
        turns: ledger::Book<W>,
    ) -> Shelf<K, N, T, W>
        requires opened { book.is_open ≡ true }
        requires named { IsNamed N.board N.next N.start N.start_faults book }
        requires unused { (tickets.total ≡ 0) × (turns.total ≡ 0) }
    {
        let Book {
            seated,
            pen,
            is_open: _,
        } = book;
        Shelf {
            seated,
            pen: Some(pen),
            tickets,
            turns,
            of: PhantomData,
        }
    }

    /// The book, and the ledger of what was not recorded: where it counts a change, the book is broken.
    pub(crate) fn into_parts(self, turn: Turn<W>) -> (Book<K>, ledger::Book<T>)
        ensures opened { result.0.is_open ≡ true }
        ensures named { IsNamed N.board N.next N.start N.start_faults result.0 }
        ensures failed { 0 < result.1.total → result.0.is_broken ≡ true }
    {
        let Shelf {
            seated,
            pen,
            tickets,
            turns,
            of: _,
        } = self;
        let Turn { share } = turn;
        let (mut turns, mut share) = (turns, share);
        turns.audit(&mut share);
        let Some(pen) = pen else { unreachable!() };
        let book = Book {
            seated,
            pen,
            is_open: true,
        };
        (book, tickets)
    }

    /// The number of the principal with this name and this secret. None exactly where nobody has both.
    pub(crate) fn admit(&self, name: &Name, secret: &Secret) -> Option<u32>
        ensures number { (board : _) → N.board ≡ Some board → result ≡ admitted board.origin.setting.principals
            name.now secret.now }
        ensures within { (board : _) → N.board ≡ Some board → IfSome result (λ p. p < length
            board.origin.setting.principals) }
    {
        self.seated.admit(name, secret)
    }

    /// Lets a pass see the whole journal.
    pub(crate) fn meet(
        &mut self,
        board: &Board<NalMatter>,
        pass: Pass<NalMatter>,
    ) -> Pass<NalMatter>
        requires board { N.board ≡ Some board.now }
        requires pass { pass.board ≡ board.now }
        ensures met { HasMet board.now self.old.seated.entries pass result }
        ensures shelf { self.new ≡ record self.old {
          seated = record self.old.seated {
            known =
                self.new.seated.known;
          };
        } }
    {
        self.seated.meet(board, pass)
    }

    /// Meets the pass, and copies the case of this principal and an operation on the object with this name.
    pub(crate) fn snap(
        &mut self,
        alloc: Global,
        board: &Board<NalMatter>,
        pass: Pass<NalMatter>,
        principal: u32,
        op: &Name,
        object: &Name,
    ) -> (Pass<NalMatter>, Snapped)
        requires board { N.board ≡ Some board.now }
        requires pass { pass.board ≡ board.now }
        requires principal { principal < length board.now.origin.setting.principals }
        ensures met { HasMet board.now self.old.seated.entries pass result.0 }
        ensures snap { IsSnap board.now.origin.setting (entry_trees self.old.seated.entries) principal op.now
            object.now result.1 }
        ensures shelf { self.new ≡ record self.old {
          seated = record self.old.seated {
            known =
                self.new.seated.known;
          };
        } }
    {
        self.seated.snap(alloc, board, pass, principal, op, object)
    }
}
