//! How a session reaches the book: by calls, of which the session does not know whether they wait.
ghost use Rattle.std.specs.Prelude.{◌≡◌, ℕ, ◌+◌, ◌<◌, List, length, IfSome, Some};
ghost use Rattle.policy_history.specs.declared.events.Entry.{Entry};
ghost use Rattle.policy_history.specs.declared.heads.Head.{Head};
ghost use Rattle.policy_history.specs.Events.{admitted};
ghost use Rattle.verdict_words.specs.Values.{Identity};
ghost use Rattle.policy_book.specs.Access.{HasMet, HasSnapped, IsAnswered, unrecorded_by};
ghost use Rattle.policy_book.specs.Books.{entry_of};
ghost use Rattle.policy_book.specs.Inner.Kept.{HasPenned, IsNamedPen};
ghost use Rattle.policy_book.specs.Inner.Visits.{IsBegun, IsDraft, IsFinished, entries_after, out_in, unrecorded_in};
ghost use Rattle.policy_book.specs.Writes.{IsLineFor};

use crate::drafts::{Begun, Draft};
use crate::matter::NalMatter;
use crate::naming::BookNaming;
use crate::pens::Pen;
use crate::shared::SharedBook;
use crate::snapping::Snapped;
use crate::turns::Turn;
use crate::writing::Written;
use nal_term::{Name, Secret};
use nx_io::Sink;
use policy_history::Event;
use std::alloc::Global;
use std::marker::Model;
use std::sync::Wait;
use std::sync::ledger::{Ledger, Share};
use verdict_words::{Board, Pass};

/// What a session can do with the book. Others may do the same between its calls, so each call tells what held at the end of
/// the journal as it was then.
pub trait BookAccess {
    /// The board of the book.
    ghost board: { Self → Identity Entry Head };

    /// How many changes were answered through it that they were not recorded.
    ghost unrecorded: { Self → ℕ };

    /// The number of the principal with this name and this secret. None exactly where nobody has both.
    fn admit(&mut self, name: &Name, secret: &Secret) -> Option<u32>
        ensures number { result ≡ admitted (board self.old).origin.setting.principals name.now secret.now }
        ensures within { IfSome result (λ p. p < length (board self.old).origin.setting.principals) }
        ensures board { board self.new ≡ board self.old }
        ensures unrecorded { unrecorded self.new ≡ unrecorded self.old };

    /// Lets a pass see the whole journal.
    fn meet(&mut self, pass: Pass<NalMatter>) -> Pass<NalMatter>
        requires pass { pass.board ≡ board self.old }
        ensures met { (entries : List Entry) × HasMet (board self.old) entries pass result }
        ensures board { board self.new ≡ board self.old }
        ensures unrecorded { unrecorded self.new ≡ unrecorded self.old };

    /// Meets the pass, and copies the case of this principal and an operation on the object with this name.
    fn snap(
        &mut self,
        alloc: Global,
        pass: Pass<NalMatter>,
        principal: u32,
        op: &Name,
        object: &Name,
    ) -> (Pass<NalMatter>, Snapped)
        requires pass { pass.board ≡ board self.old }
        requires principal { principal < length (board self.old).origin.setting.principals }
        ensures snapped { HasSnapped (board self.old) principal op.now object.now pass result.0 result.1 }
        ensures board { board self.new ≡ board self.old }
        ensures unrecorded { unrecorded self.new ≡ unrecorded self.old };

    /// Makes a change of this principal in the session of the pass, where the policy accepts it. `line` is the entry's line in
    /// the policy text with its line feed, where the event is spelled whole, else it is empty.
    fn write(
        &mut self,
        pass: Pass<NalMatter>,
        principal: u32,
        event: Event,
        line: &[u8],
    ) -> (Pass<NalMatter>, Written)
        requires pass { pass.board ≡ board self.old }
        requires principal { principal < length (board self.old).origin.setting.principals }
        requires line { IsLineFor (board self.old).origin.setting (entry_of pass.session principal event) line.now }
        ensures answered { IsAnswered (board self.old) pass result.0 principal event result.1 }
        ensures pass { (result.0.board ≡ pass.board) × (result.0.session ≡ pass.session) }
        ensures board { board self.new ≡ board self.old }
        ensures unrecorded { unrecorded self.new ≡ unrecorded self.old + unrecorded_by result.1 };
}

/// A shared book, whose locks are taken for each call. The share counts the changes that were answered through it that they
/// were not recorded, in the ledger of the book.
#[derive(Drop)]
pub struct LockedBook<'a, K: Sink, N: BookNaming, T: Ledger, W: Ledger, R> {
    rt: &'a R,
    board: &'a Board<NalMatter>,
    book: &'a SharedBook<K, N, T, W>,
    mark: Share<T>,
}

impl<'a, K: Sink, N: BookNaming, T: Ledger, W: Ledger, R> Model for LockedBook<'a, K, N, T, W, R> {
    ghost use Rattle.std.specs.Prelude.{◌≡◌, ◌<◌, Some};
    ghost use Rattle.std.specs.Coded.{codes};
    ghost use Rattle.nal_term.specs.contracts.terms.Term as t;
    ghost use Rattle.nal_term.specs.contracts.formulas.Formula as f;
    ghost use Rattle.policy_book.specs.Access.{LockedValue};

    ghost Value = { LockedValue };

    ghost coded = { Prim.hlevel (codes, t.the_row.coded, f.the_row.coded) };

    ghost view = { λ b. record { board = b.board.now; unrecorded = b.mark.amount } };

    ghost invariant = { λ b. (N.board ≡ Some b.board.now) × (0 < b.mark.parts) };
}

impl<'a, K: Sink, N: BookNaming, T: Ledger, W: Ledger, R> LockedBook<'a, K, N, T, W, R> {
    /// The shared book, whose board is this one. It goes on with the count of the share.
    pub fn new(
        rt: &'a R,
        board: &'a Board<NalMatter>,
        book: &'a SharedBook<K, N, T, W>,
        mark: Share<T>,
    ) -> LockedBook<'a, K, N, T, W, R>
        requires named { N.board ≡ Some board.now }
        requires parts { 0 < mark.parts }
        ensures board { result.board ≡ board.now }
        ensures unrecorded { result.unrecorded ≡ mark.amount }
    {
        LockedBook {
            rt,
            board,
            book,
            mark,
        }
    }

    /// The share, with the count as it is now.
    pub fn into_mark(self) -> Share<T>
        ensures amount { result.amount ≡ self.entry.unrecorded }
        ensures parts { 0 < result.parts }
    {
        let LockedBook { mark, .. } = self;
        mark
    }
}

impl<'a, K: Sink, N: BookNaming, T: Ledger, W: Ledger, R: Wait> LockedBook<'a, K, N, T, W, R> {
    // Makes a change, while the writer's lock is held. The journal's lock is taken at each visit, and let go before the line goes
    // out.
    fn write_in(
        &mut self,
        turn: &mut Turn<W>,
        pass: Pass<NalMatter>,
        principal: u32,
        event: Event,
        line: &[u8],
    ) -> (Pass<NalMatter>, Written)
        requires pass { pass.board ≡ self.old.board }
        requires principal { principal < length self.old.board.origin.setting.principals }
        requires line { IsLineFor self.old.board.origin.setting (entry_of pass.session principal event) line.now }
        ensures answered { IsAnswered self.old.board pass result.0 principal event result.1 }
        ensures pass { (result.0.board ≡ pass.board) × (result.0.session ≡ pass.session) }
        ensures board { self.new.board ≡ self.old.board }
        ensures unrecorded { self.new.unrecorded ≡ self.old.unrecorded + unrecorded_by result.1 }
    {
        let Turn { share } = turn;
        match self.begin(share, pass, principal, event) {
            Begun::Answered(pass, written) => (pass, written),
            Begun::Accepted(draft, pen) => {
                let mut pen = pen;
                pen.write(&draft, line);
                self.finish(share, draft, pen)
            }
        }
    }

    // The first visit at the journal.
    fn begin(
        &mut self,
        share: &mut Share<W>,
        pass: Pass<NalMatter>,
        principal: u32,
        event: Event,
    ) -> Begun<K>
        requires pass { pass.board ≡ self.old.board }
        requires principal { principal < length self.old.board.origin.setting.principals }
        requires whole { (share.old.parts ≡ W.parts) × (0 < share.old.parts) × (share.old.amount ≡ 0) }
        ensures begun { IsBegun self.old.board K.sent K.synced K.faults N.start N.start_faults pass principal event
            result }
        ensures out { (share.new.amount ≡ out_in result) × (share.new.parts ≡ share.old.parts) }
        ensures board { self.new.board ≡ self.old.board }
        ensures unrecorded { self.new.unrecorded ≡ self.old.unrecorded + unrecorded_in result }
    {
        self.book
            .shelf
            .lock(self.rt)
            .begin(self.board, share, &mut self.mark, pass, principal, event)
    }

    // The second visit.
    fn finish(
        &mut self,
        share: &mut Share<W>,
        draft: Draft,
        pen: Pen<K>,
    ) -> (Pass<NalMatter>, Written)
        requires whole { (share.old.parts ≡ W.parts) × (share.old.amount ≡ 1 + length draft.pass.seen) }
        requires draft { IsDraft self.old.board draft }
        requires text { HasPenned K.sent K.synced K.faults self.old.board (entries_after pen.is_broken draft) pen }
        requires named { IsNamedPen K.sent K.synced K.faults N.start N.start_faults pen }
        ensures finished { IsFinished self.old.board draft result.0 pen.is_broken result.1 }
        ensures out { (share.new.amount ≡ 0) × (share.new.parts ≡ share.old.parts) }
        ensures board { self.new.board ≡ self.old.board }
        ensures unrecorded { self.new.unrecorded ≡ self.old.unrecorded + unrecorded_by result.1 }
    {
        self.book
            .shelf
            .lock(self.rt)
            .finish(self.board, share, &mut self.mark, draft, pen)
    }
}

impl<'a, K: Sink, N: BookNaming, T: Ledger, W: Ledger, R: Wait> BookAccess
    for LockedBook<'a, K, N, T, W, R> {
    ghost board = { λ b. b.board };

    ghost unrecorded = { λ b. b.unrecorded };

    fn admit(&mut self, name: &Name, secret: &Secret) -> Option<u32> {
        self.book.shelf.lock(self.rt).admit(name, secret)
    }

    fn meet(&mut self, pass: Pass<NalMatter>) -> Pass<NalMatter> {
        self.book.shelf.lock(self.rt).meet(self.board, pass)
    }

    fn snap(
        &mut self,
        alloc: Global,
        pass: Pass<NalMatter>,
        principal: u32,
        op: &Name,
        object: &Name,
    ) -> (Pass<NalMatter>, Snapped) {
        self.book
            .shelf
            .lock(self.rt)
            .snap(alloc, self.board, pass, principal, op, object)
    }

    fn write(
        &mut self,
        pass: Pass<NalMatter>,
        principal: u32,
        event: Event,
        line: &[u8],
    ) -> (Pass<NalMatter>, Written) {
        let mut turn = self.book.writing.lock(self.rt);
        self.write_in(&mut turn, pass, principal, event, line)
    }
}
