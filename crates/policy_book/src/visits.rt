//! The two visits at the journal that a change takes: it is decided at the first and made at the second, and its line is written
//! between them.
ghost use Rattle.std.specs.Prelude.{◌≡◌, ℕ, ◌+◌, ◌<◌, ◌≤◌, false, true, length, Ok, Some};
ghost use Rattle.policy_book.specs.Access.{HasMet, unrecorded_by};
ghost use Rattle.policy_book.specs.Books.{decided_at};
ghost use Rattle.policy_book.specs.Inner.Adding.{IsPublished};
ghost use Rattle.policy_book.specs.Inner.Kept.{HasPenned, IsNamedPen, IsPenIn};
ghost use Rattle.policy_book.specs.Inner.Visits.{IsBegun, IsDraft, IsFinished, IsUnrecorded, entries_after, out_in, unrecorded_in};
ghost use Rattle.policy_book.specs.declared.writing.Written.TheVariants.{Refused};

use crate::drafts::{Begun, Draft};
use crate::matter::NalMatter;
use crate::naming::BookNaming;
use crate::pens::Pen;
use crate::seated::SeatedJournal;
use crate::shelf::Shelf;
use crate::writing::Written;
use nx_io::Sink;
use policy_history::{Event, Refusal};
use std::sync::ledger;
use std::sync::ledger::{Ledger, Share};
use verdict_words::{Board, Pass};

impl<K: Sink, N: BookNaming, T: Ledger, W: Ledger> Shelf<K, N, T, W> {
    /// The first visit. A change that the policy refuses, or that can't be recorded since the book is broken, is answered. For any
    /// other all memory is taken, its pass is met, and the pen is taken out. `NoMemory` leaves everything as it was.
    pub(crate) fn begin(
        &mut self,
        board: &Board<NalMatter>,
        share: &mut Share<W>,
        mark: &mut Share<T>,
        pass: Pass<NalMatter>,
        principal: u32,
        event: Event,
    ) -> Begun<K>
        requires board { N.board ≡ Some board.now }
        requires pass { pass.board ≡ board.now }
        requires principal { principal < length board.now.origin.setting.principals }
        requires whole { (share.old.parts ≡ W.parts) × (0 < share.old.parts) × (share.old.amount ≡ 0) }
        requires parts { 0 < mark.old.parts }
        ensures begun { IsBegun board.now K.sent K.synced K.faults N.start N.start_faults pass principal event result }
        ensures journal { self.new.seated.entries ≡ self.old.seated.entries }
        ensures out { (share.new.amount ≡ out_in result) × (share.new.parts ≡ share.old.parts) }
        ensures amount { mark.new.amount ≡ mark.old.amount + unrecorded_in result }
        ensures parts { mark.new.parts ≡ mark.old.parts }
    {
        match self.seated.decide(pass.session(), principal, &event) {
            Err(refusal) => {
                drop(event);
                let (pass, written) = refuse(&mut self.seated, board, pass, refusal);
                Begun::Answered(pass, written)
            }
            Ok(due) => {
                if self.is_broken(share) {
                    drop(event);
                    self.refuse_unrecorded(board, mark, pass)
                } else {
                    self.accept(board, share, pass, principal, event, due.number)
                }
            }
        }
    }

    // Whether the book is broken. The pen is there.
    fn is_broken(&mut self, share: &mut Share<W>) -> bool
        requires whole { (share.old.parts ≡ W.parts) × (0 < share.old.parts) × (share.old.amount ≡ 0) }
        ensures pen { IsPenIn result self.old.pen }
        ensures shelf { self.new ≡ self.old }
        ensures out { (share.new.amount ≡ 0) × (share.new.parts ≡ share.old.parts) }
    {
        self.turns.audit(share);
        let Some(pen) = &self.pen else { unreachable!() };
        pen.is_broken
    }

    // Answers a change that can't be recorded, since the book is broken.
    fn refuse_unrecorded(
        &mut self,
        board: &Board<NalMatter>,
        mark: &mut Share<T>,
        pass: Pass<NalMatter>,
    ) -> Begun<K>
        requires board { N.board ≡ Some board.now }
        requires pass { pass.board ≡ board.now }
        requires broken { IsPenIn true self.old.pen }
        requires parts { 0 < mark.old.parts }
        ensures answered { IsUnrecorded board.now self.old.seated.entries pass result }
        ensures journal { self.new.seated.entries ≡ self.old.seated.entries }
        ensures amount { mark.new.amount ≡ mark.old.amount + 1 }
        ensures parts { mark.new.parts ≡ mark.old.parts }
    {
        self.tickets.add(mark, 1);
        let (pass, written) = refuse(&mut self.seated, board, pass, Refusal::NotRecorded);
        Begun::Answered(pass, written)
    }

    // Takes the pen out for a change that is accepted, where there is memory for it.
    fn accept(
        &mut self,
        board: &Board<NalMatter>,
        share: &mut Share<W>,
        pass: Pass<NalMatter>,
        principal: u32,
        event: Event,
        number: u64,
    ) -> Begun<K>
        requires board { N.board ≡ Some board.now }
        requires pass { pass.board ≡ board.now }
        requires principal { principal < length board.now.origin.setting.principals }
        requires fewer { length self.old.seated.entries < 262144 }
        requires accepted { (bytes : ℕ) × (decided_at board.now self.old.seated.entries pass.session principal
            event ≡ Ok (record { number = number; bytes = bytes })) }
        requires unbroken { IsPenIn false self.old.pen }
        requires whole { (0 < share.old.parts) × (share.old.amount ≡ 0) }
        ensures begun { IsBegun board.now K.sent K.synced K.faults N.start N.start_faults pass principal event result }
        ensures journal { self.new.seated.entries ≡ self.old.seated.entries }
        ensures out { (share.new.amount ≡ out_in result) × (share.new.parts ≡ share.old.parts) }
        ensures recorded { unrecorded_in result ≡ 0 }
    {
        let Ok(spare) = self.seated.reserve(&event) else {
            drop(event);
            return Begun::Answered(pass, Written::NoMemory);
        };
        let Some(pen) = self.pen.take() else {
            unreachable!()
        };
        self.turns.add(share, 1);
        self.turns.add(share, self.seated.count());
        let pass = self.seated.meet(board, pass);
        let draft = Draft {
            pass,
            principal,
            event,
            number,
            spare,
        };
        Begun::Accepted(draft, pen)
    }

    /// The second visit, with the pen that has written the draft's line, or is broken. The pen is put back, and the change is made
    /// where it was recorded. It takes no memory.
    pub(crate) fn finish(
        &mut self,
        board: &Board<NalMatter>,
        share: &mut Share<W>,
        mark: &mut Share<T>,
        draft: Draft,
        pen: Pen<K>,
    ) -> (Pass<NalMatter>, Written)
        requires board { N.board ≡ Some board.now }
        requires whole { (share.old.parts ≡ W.parts) × (share.old.amount ≡ 1 + length draft.pass.seen) }
        requires parts { 0 < mark.old.parts }
        requires draft { IsDraft board.now draft }
        requires text { HasPenned K.sent K.synced K.faults board.now (entries_after pen.is_broken draft) pen }
        requires named { IsNamedPen K.sent K.synced K.faults N.start N.start_faults pen }
        ensures finished { IsFinished board.now draft result.0 pen.is_broken result.1 }
        ensures before { self.old.seated.entries ≡ draft.pass.seen }
        ensures journal { self.new.seated.entries ≡ entries_after pen.is_broken draft }
        ensures published { pen.is_broken ≡ false → IsPublished self.old.seated.known draft.pass.known (length
            draft.pass.seen) self.new.seated.known }
        ensures out { (share.new.amount ≡ 0) × (share.new.parts ≡ share.old.parts) }
        ensures amount { mark.new.amount ≡ mark.old.amount + unrecorded_by result.1 }
        ensures parts { mark.new.parts ≡ mark.old.parts }
    {
        self.turns.audit(share);
        let is_broken = pen.is_broken;
        match self.pen.replace(pen) {
            None => {}
            Some(_other) => unreachable!(),
        }
        self.turns.sub(share, 1);
        self.turns.sub(share, self.seated.count());
        let (pass, written) = end(&mut self.seated, board, draft, is_broken);
        count(&mut self.tickets, mark, &written);
        (pass, written)
    }
}

// Answers a change that is refused.
fn refuse(
    seated: &mut SeatedJournal,
    board: &Board<NalMatter>,
    pass: Pass<NalMatter>,
    refusal: Refusal,
) -> (Pass<NalMatter>, Written)
    requires board { seated.old.board ≡ board.now }
    requires pass { pass.board ≡ board.now }
    ensures refused { result.1 ≡ Refused (length seated.old.entries) refusal }
    ensures met { HasMet board.now seated.old.entries pass result.0 }
    ensures seated { seated.new ≡ record seated.old { known = seated.new.known } }
{
    let at = seated.count();
    (seated.meet(board, pass), Written::Refused { at, refusal })
}

// Makes a change whose line was written, or answers that it was not recorded.
fn end(
    seated: &mut SeatedJournal,
    board: &Board<NalMatter>,
    draft: Draft,
    is_broken: bool,
) -> (Pass<NalMatter>, Written)
    requires board { seated.old.board ≡ board.now }
    requires draft { IsDraft board.now draft }
    requires long { length draft.pass.seen ≡ length seated.old.entries }
    requires room { 1 ≤ seated.old.room }
    ensures finished { IsFinished board.now draft result.0 is_broken result.1 }
    ensures before { seated.old.entries ≡ draft.pass.seen }
    ensures seated { seated.new ≡ record seated.old {
      entries = entries_after is_broken draft;
      known =
          seated.new.known;
      room = seated.new.room;
    } }
    ensures published { is_broken ≡ false → IsPublished seated.old.known draft.pass.known (length draft.pass.seen)
        seated.new.known }
{
    let Draft {
        pass,
        principal,
        event,
        number,
        spare,
    } = draft;
    if is_broken {
        drop(event);
        drop(spare);
        return refuse(seated, board, pass, Refusal::NotRecorded);
    }
    let pass = seated.add(board, pass, principal, event, spare);
    let at = seated.count();
    (pass, Written::Done { at, number })
}

// Counts a change that was answered that it was not recorded.
fn count<T: Ledger>(tickets: &mut ledger::Book<T>, mark: &mut Share<T>, written: &Written)
    requires parts { 0 < mark.old.parts }
    ensures total { tickets.new.total ≡ tickets.old.total + unrecorded_by written.now }
    ensures amount { mark.new.amount ≡ mark.old.amount + unrecorded_by written.now }
    ensures parts { mark.new.parts ≡ mark.old.parts }
{
    if let Written::Refused {
        refusal: Refusal::NotRecorded,
        ..
    } = written
    {
        tickets.add(mark, 1);
    }
}
