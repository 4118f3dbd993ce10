//! The book: how it is made, opened and given up, and how sessions get their passes.
ghost use Rattle.std.specs.Prelude.{◌≡◌, ◌≢◌, ◌+◌, ◌-◌, ◌^◌, ◌<◌, ◌≤◌, [], false, map, true, All, IfErr, IfOk, OnOk};
ghost use Rattle.nx_io.specs.Streams.{SendsAll, faults_after_reach};
ghost use Rattle.policy_history.specs.PolicyTexts.{front};
ghost use Rattle.policy_history.specs.Values.{entry_trees, greatest_of};
ghost use Rattle.verdict_words.specs.Settling.{all_met, all_of, items_of};
ghost use Rattle.verdict_words.specs.Values.{enrolled};
ghost use Rattle.policy_book.specs.Books.{AreGatheredIn, IsLegalBook, IsMetIn, IsNumbered, IsWritten, head_of, is_failed, is_ready, new_book, trees_of};

use crate::matter::NalMatter;
use crate::pens::Pen;
use crate::seated::SeatedJournal;
use nx_io::{Reach, Sink, send_all};
use policy_history::Journal;
use std::alloc::{AllocError, Global};
use std::marker::Model;
use verdict_words::{Board, Mark, Pass, Roll};

/// The journal of a policy, the seat of its board, and the sink of its text. Contracts see the board, the entries, the
/// number of the next session, the sink with what it had sent when the book was made, whether the book is open, and whether a
/// write or a sync of the text has failed. `docs/ARCHITECTURE.md`, "The book", says how it is used.
#[derive(Drop)]
pub struct Book<K: Sink> {
    pub(crate) seated: SeatedJournal,
    pub(crate) pen: Pen<K>,
    pub(crate) is_open: bool,
}

impl<K: Sink> Model for Book<K> {
    ghost use Rattle.std.specs.Coded.{codes};
    ghost use Rattle.nal_term.specs.contracts.terms.Term as t;
    ghost use Rattle.nal_term.specs.contracts.formulas.Formula as f;
    ghost use Rattle.policy_book.specs.Books.{BookValue};

    ghost Value = { BookValue K };

    ghost coded = { Prim.hlevel (codes, t.the_row.coded, f.the_row.coded) };

    ghost use Rattle.policy_book.specs.Books.{HasWritten};
    ghost use Rattle.policy_book.specs.Inner.Kept.{value_of};

    ghost view = { λ b. value_of K.sent K.faults b.seated b.pen.sink b.pen.start.value b.is_open b.pen.is_broken };

    ghost invariant = { λ b. HasWritten K.sent K.synced K.faults b.is_open b.pen.is_broken b.seated.board b.seated.entries (K.sent b.pen.start.value) (K.faults b.pen.start.value) b.pen.sink };
}

impl<K: Sink> Book<K> {
    /// A book over this journal and this sink, and the board of its entries. Its sessions are numbered from one above the
    /// greatest session number of the journal. It writes nothing. At want of memory journal and sink are given back.
    pub fn make(
        alloc: Global,
        journal: Journal,
        sink: K,
    ) -> Result<(Board<NalMatter>, Book<K>), (Journal, K, AllocError)>
        requires { greatest_of (entry_trees journal.entries) < 2 ^ 64 - 1 }
        ensures board { IfOk result
            (λ r. r.0.origin
            ≡ record {
              setting = journal.head;
              opening = journal.entries;
              first = greatest_of
                  (entry_trees journal.entries) + 1;
            }) }
        ensures book { IfOk result (λ r. r.1 ≡ new_book K.sent K.faults r.0 sink) }
        ensures kept { IfErr result (λ r. (r.0 ≡ journal) × (r.1 ≡ sink)) }
    {
        let _count = journal.count();
        let next = journal.greatest_session() + 1;
        match Board::make(alloc, journal.head(), journal.entries(), next) {
            Ok((board, seat)) => {
                let start = Mark::of(&sink);
                let book = Book {
                    seated: SeatedJournal { journal, seat },
                    pen: Pen {
                        sink,
                        start,
                        is_broken: false,
                    },
                    is_open: false,
                };
                Ok((board, book))
            }
            Err(AllocError) => Err((journal, sink, AllocError)),
        }
    }

    /// Writes the front of the policy text, which is the text of the journal without its last line. `Ready` says that it went
    /// out whole, and the book is then open. `Failed` comes only where the sink failed in this call; the book is then broken,
    /// and is never open. It takes no memory.
    pub fn open(&mut self, text: &[u8]) -> Reach
        requires closed { self.old.is_open ≡ false }
        requires unbroken { self.old.is_broken ≡ false }
        requires text { text.now ≡ front (head_of self.old) (trees_of self.old) }
        ensures book { self.new
            ≡ record self.old { sink = self.new.sink; is_open = is_ready result; is_broken = is_failed result } }
        ensures bytes { SendsAll result (K.sent self.old.sink) (K.sent self.new.sink) text.now }
        ensures count { K.faults self.new.sink ≡ faults_after_reach result (K.faults self.old.sink) }
    {
        match send_all(&mut self.pen.sink, text) {
            Reach::Ready => {
                self.is_open = true;
                Reach::Ready
            }
            Reach::Failed => {
                self.pen.is_broken = true;
                Reach::Failed
            }
        }
    }

    /// Whether a write or a sync of the policy text has failed. The other clauses say what always holds of a book.
    pub fn broken(&self) -> bool
        ensures value { result ≡ self.now.is_broken }
        ensures legal { IsLegalBook self.now }
        ensures numbered { IsNumbered self.now }
        ensures written { IsWritten K.sent K.synced K.faults self.now }
    {
        let _count = self.seated.count();
        self.pen.is_broken
    }

    /// A pass for a new session, which has seen the whole journal. It takes no memory.
    pub fn enter(&mut self, board: &Board<NalMatter>) -> Pass<NalMatter>
        requires board { self.old.board ≡ board.now }
        requires room { self.old.next < 2 ^ 64 - 1 }
        ensures pass { result
            ≡ record {
              board = board.now;
              session = self.old.next;
              seen = self.old.entries;
              trail = [];
              known = self.old.known;
            } }
        ensures unused { All (λ entry. entry.session ≢ self.old.next) self.old.entries }
        ensures book { self.new ≡ record self.old { next = self.old.next + 1 } }
    {
        self.seated.enter(board)
    }

    /// A roll of so many new sessions, each as `enter` would make it: no entry is of the session of any of them. The error is
    /// want of memory, and then no more than the number of the next session has grown.
    pub fn enroll(
        &mut self,
        alloc: Global,
        board: &Board<NalMatter>,
        sessions: u64,
    ) -> Result<Roll<NalMatter>, AllocError>
        requires board { self.old.board ≡ board.now }
        requires room { self.old.next + sessions ≤ 2 ^ 64 - 1 }
        ensures roll { IfOk result (λ roll. roll ≡ enrolled board.now self.old.next self.old.entries self.old.known
            sessions) }
        ensures unused { IfOk result (λ roll. All (λ pass. All (λ entry. entry.session ≢ pass.session)
            self.old.entries) roll) }
        ensures book { OnOk result (self.new ≡ record self.old { next = self.old.next + sessions }) }
        ensures kept { self.new ≡ record self.old { next = self.new.next } }
    {
        self.seated.enroll(alloc, board, sessions)
    }

    /// Meets each of the passes, list by list, and behind them those that the rolls hold; but all are held before the first is
    /// given back. So there is one order of all atomic steps that were made on the board, which then all know: it begins with
    /// what each knew before, and of each session it has the steps that its pass's trail tells. The passes come back in lists
    /// as they came; those of the rolls are let go. It takes no memory.
    pub fn settle(
        &mut self,
        board: &Board<NalMatter>,
        passes: Vec<Vec<Pass<NalMatter>>>,
        unused: Vec<Roll<NalMatter>>,
    ) -> Vec<Vec<Pass<NalMatter>>>
        requires opened { self.old.is_open ≡ true }
        requires board { self.old.board ≡ board.now }
        requires passes { All (λ pass. pass.board ≡ board.now) (all_of (items_of passes.items) unused.items) }
        ensures passes { items_of result.items
            ≡ map (all_met board.now self.old.entries self.new.known) (items_of passes.items) }
        ensures met { All (IsMetIn self.old) (all_of (items_of passes.items) unused.items) }
        ensures known { AreGatheredIn self.old (all_of (items_of passes.items) unused.items) self.new.known }
        ensures book { self.new ≡ record self.old { known = self.new.known } }
    {
        self.seated.settle(board, passes, unused)
    }

    /// The journal and the sink, once the book is done with.
    pub fn into_parts(self) -> (Journal, K)
        ensures head { result.0.head ≡ head_of self }
        ensures entries { result.0.entries ≡ self.entries }
        ensures sink { result.1 ≡ self.sink }
        ensures legal { IsLegalBook self }
        ensures numbered { IsNumbered self }
        ensures written { IsWritten K.sent K.synced K.faults self }
    {
        let _broken = self.broken();
        let Book { seated, pen, .. } = self;
        let SeatedJournal { journal, .. } = seated;
        let Pen { sink, .. } = pen;
        (journal, sink)
    }
}
