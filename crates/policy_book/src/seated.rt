//! The journal, with the seat of its board.
ghost use Rattle.std.specs.Prelude.{◌≡◌, ◌≢◌, ◌+◌, ◌-◌, ◌^◌, ◌<◌, ◌≤◌, [], ◌∷◌, ◌++◌, length, map, All, IfOk, IfSome, IsOk, None, OnOk};
ghost use Rattle.policy_history.specs.Events.{admitted, event_tree};
ghost use Rattle.policy_history.specs.Judged.{region_in};
ghost use Rattle.policy_history.specs.Machine.{IsLegal};
ghost use Rattle.policy_history.specs.Values.{entry_trees, state_after};
ghost use Rattle.verdict_words.specs.Histories.{IsPrefix};
ghost use Rattle.verdict_words.specs.Rule.{IsSeated};
ghost use Rattle.verdict_words.specs.Settling.{AreGathered, all_met, all_of, items_of};
ghost use Rattle.verdict_words.specs.Values.{enrolled};
ghost use Rattle.policy_book.specs.Books.{IsMetAt, decided_at, met_at, session_of};
ghost use Rattle.policy_book.specs.Inner.Adding.{IsAdded, IsPublished, met_twice};

use crate::matter::NalMatter;
use nal_term::{Name, Secret};
use policy_history::{Due, Entry, Event, Journal, Refusal, Spare};
use std::alloc::{AllocError, Global};
use std::marker::Model;
use verdict_words::{Board, BookSeat, Pass, Roll};

/// The journal of a policy and the seat of its board. Its calls read and write nothing, so whoever waits for it waits for no disk.
#[derive(Drop)]
pub(crate) struct SeatedJournal {
    pub(crate) journal: Journal,
    pub(crate) seat: BookSeat<NalMatter>,
}

impl Model for SeatedJournal {
    ghost use Rattle.std.specs.Coded.{codes};
    ghost use Rattle.nal_term.specs.contracts.terms.Term as t;
    ghost use Rattle.nal_term.specs.contracts.formulas.Formula as f;
    ghost use Rattle.policy_book.specs.Inner.Kept.{IsKept, SeatedValue, seated_of};

    ghost Value = { SeatedValue };

    ghost coded = { Prim.hlevel (codes, t.the_row.coded, f.the_row.coded) };

    ghost view = { λ s. seated_of s.journal s.seat };

    ghost invariant = { λ s. IsKept s.journal s.seat };
}

impl SeatedJournal {
    /// How many entries there are. The other clauses say what always holds.
    pub(crate) fn count(&self) -> u64
        ensures count { result ≡ length self.now.entries }
        ensures bound { result ≤ 262144 }
        ensures legal { IsLegal self.now.board.origin.setting (entry_trees self.now.entries) }
        ensures numbered { IsSeated session_of self.now.board.origin self.now.entries self.now.next 0 }
    {
        let _next = self.seat.next_session();
        self.journal.count()
    }

    /// The number of the principal with this name and this secret. None exactly where nobody has both.
    pub(crate) fn admit(&self, name: &Name, secret: &Secret) -> Option<u32>
        ensures number { result ≡ admitted self.now.board.origin.setting.principals name.now secret.now }
        ensures within { IfSome result (λ p. p < length self.now.board.origin.setting.principals) }
    {
        self.journal.principal_of(name, secret)
    }

    /// A pass for a new session, which has seen the whole journal. It takes no memory.
    pub(crate) fn enter(&mut self, board: &Board<NalMatter>) -> Pass<NalMatter>
        requires board { self.old.board ≡ board.now }
        requires room { self.old.next < 2 ^ 64 - 1 }
        ensures pass { result ≡ record {
          board = board.now;
          session = self.old.next;
          seen = self.old.entries;
          trail
              = [];
          known = self.old.known;
        } }
        ensures unused { All (λ entry. entry.session ≢ self.old.next) self.old.entries }
        ensures seated { self.new ≡ record self.old { next = self.old.next + 1 } }
    {
        board.enter(&mut self.seat)
    }

    /// A roll of so many new sessions, each as `enter` would make it.
    pub(crate) fn enroll(
        &mut self,
        alloc: Global,
        board: &Board<NalMatter>,
        sessions: u64,
    ) -> Result<Roll<NalMatter>, AllocError>
        requires board { self.old.board ≡ board.now }
        requires room { self.old.next + sessions ≤ 2 ^ 64 - 1 }
        ensures roll { IfOk result (λ roll. roll ≡ enrolled board.now self.old.next self.old.entries self.old.known
            sessions) }
        ensures unused { IfOk result (λ roll. All (λ pass. All (λ entry. entry.session ≢ pass.session)
            self.old.entries) roll) }
        ensures seated { OnOk result (self.new ≡ record self.old { next = self.old.next + sessions }) }
        ensures kept { self.new ≡ record self.old { next = self.new.next } }
    {
        board.enroll(alloc, &mut self.seat, sessions)
    }

    /// Lets a pass see the whole journal. It takes no memory.
    pub(crate) fn meet(
        &mut self,
        board: &Board<NalMatter>,
        pass: Pass<NalMatter>,
    ) -> Pass<NalMatter>
        requires board { self.old.board ≡ board.now }
        requires pass { pass.board ≡ board.now }
        ensures pass { result ≡ met_at self.old.board self.old.entries self.new.known pass }
        ensures met { IsMetAt self.old.board self.old.next self.old.entries pass }
        ensures known { AreGathered self.old.board self.old.next self.old.entries self.old.known (pass ∷ [])
            self.new.known }
        ensures seated { self.new ≡ record self.old { known = self.new.known } }
    {
        board.meet(&mut self.seat, pass)
    }

    /// Meets each of the passes, list by list, and behind them those of the rolls; but all are held before the first is given
    /// back. It takes no memory.
    pub(crate) fn settle(
        &mut self,
        board: &Board<NalMatter>,
        passes: Vec<Vec<Pass<NalMatter>>>,
        unused: Vec<Roll<NalMatter>>,
    ) -> Vec<Vec<Pass<NalMatter>>>
        requires board { self.old.board ≡ board.now }
        requires passes { All (λ pass. pass.board ≡ board.now) (all_of (items_of passes.items) unused.items) }
        ensures passes { items_of result.items
            ≡ map (all_met board.now self.old.entries self.new.known) (items_of passes.items) }
        ensures met { All (IsMetAt self.old.board self.old.next self.old.entries)
            (all_of (items_of passes.items) unused.items) }
        ensures known { AreGathered self.old.board self.old.next self.old.entries self.old.known
            (all_of (items_of passes.items) unused.items) self.new.known }
        ensures seated { self.new ≡ record self.old { known = self.new.known } }
    {
        board.settle(&mut self.seat, passes, unused)
    }

    /// What a change comes to at the end of the journal.
    pub(crate) fn decide(&self, session: u64, principal: u32, event: &Event) -> Result<Due, Refusal>
        requires { principal < length self.now.board.origin.setting.principals }
        ensures decision { result ≡ decided_at self.now.board self.now.entries session principal event.now }
        ensures fewer { OnOk result (length self.now.entries < 262144) }
    {
        self.journal.decide(session, principal, event)
    }

    /// Takes all memory for one more entry.
    pub(crate) fn reserve(&mut self, event: &Event) -> Result<Spare, AllocError>
        ensures seated { self.new ≡ record self.old { room = self.new.room } }
        ensures room { OnOk result (1 ≤ self.new.room) }
        ensures spare { IfOk result (λ spare. spare ≡ event.now) }
    {
        self.journal.reserve(event)
    }

    /// Adds an entry to the journal and to the history of the board, for a change that is accepted at the end of the journal that
    /// the pass has seen, which is as long as this one. The pass is met before and after.
    pub(crate) fn add(
        &mut self,
        board: &Board<NalMatter>,
        pass: Pass<NalMatter>,
        principal: u32,
        event: Event,
        spare: Spare,
    ) -> Pass<NalMatter>
        requires board { self.old.board ≡ board.now }
        requires pass { pass.board ≡ board.now }
        requires principal { principal < length board.now.origin.setting.principals }
        requires long { length pass.seen ≡ length self.old.entries }
        requires fewer { length self.old.entries < 262144 }
        requires accepted { IsOk (decided_at board.now pass.seen pass.session principal event) }
        requires room { 1 ≤ self.old.room }
        requires spare { event_tree spare ≡ event_tree event }
        ensures seen { self.old.entries ≡ pass.seen }
        ensures seated { self.new ≡ record self.old {
          entries = self.old.entries ++ record {
            session =
                pass.session;
            principal = principal;
            event = event;
          } ∷ [];
          known = self.new.known;
          room = self.new.room;
        } }
        ensures published { IsPublished self.old.known pass.known (length self.old.entries) self.new.known }
        ensures pass { result ≡ met_twice self.old.board self.old.entries self.new.entries self.new.known pass }
    {
        add(
            &mut self.journal,
            &mut self.seat,
            board,
            pass,
            principal,
            event,
            spare,
        )
    }
}

// Adds an entry to a journal and to the history of its board, whose owner meets the pass before and after.
fn add(
    journal: &mut Journal,
    seat: &mut BookSeat<NalMatter>,
    board: &Board<NalMatter>,
    pass: Pass<NalMatter>,
    principal: u32,
    event: Event,
    spare: Spare,
) -> Pass<NalMatter>
    requires board { seat.old.board ≡ board.now }
    requires pass { pass.board ≡ board.now }
    requires head { journal.old.head ≡ board.now.origin.setting }
    requires entries { journal.old.entries ≡ seat.old.entries }
    requires free { (seat.old.lag ≡ []) × (seat.old.raised ≡ None) }
    requires principal { principal < length journal.old.head.principals }
    requires long { length pass.seen ≡ length seat.old.entries }
    requires fewer { length journal.old.entries < 262144 }
    requires accepted { IsOk (decided_at board.now pass.seen pass.session principal event) }
    requires room { 1 ≤ journal.old.room }
    requires spare { event_tree spare ≡ event_tree event }
    ensures seen { seat.old.entries ≡ pass.seen }
    ensures head { journal.new.head ≡ journal.old.head }
    ensures entries { journal.new.entries ≡ journal.old.entries ++ record {
      session = pass.session;
      principal =
          principal;
      event = event;
    } ∷ [] }
    ensures added { IsAdded seat.old seat.new pass (record {
      session = pass.session;
      principal = principal;
      event =
          event;
    }) }
    ensures published { IsPublished seat.old.known pass.known (length seat.old.entries) seat.new.known }
    ensures pass { result ≡ met_twice seat.old.board seat.old.entries seat.new.entries seat.new.known pass }
{
    let pass = board.meet(seat, pass);
    raise(journal, seat, board, principal, &event);
    let entry = Entry {
        session: pass.session(),
        principal,
        event,
    };
    board.publish(seat, &entry);
    let Entry {
        session,
        principal,
        event,
    } = entry;
    journal.append(session, principal, event, spare);
    board.meet(seat, pass)
}

// Raises the region that a change touches, if it touches one.
fn raise(
    journal: &Journal,
    seat: &mut BookSeat<NalMatter>,
    board: &Board<NalMatter>,
    principal: u32,
    event: &Event,
)
    requires board { seat.old.board ≡ board.now }
    requires free { seat.old.raised ≡ None }
    requires principal { principal < length journal.now.head.principals }
    requires fewer { length seat.old.entries < 262144 }
    ensures seat { seat.new ≡ record seat.old {
      raised = region_in (state_after journal.now) principal (event_tree
          event.now);
      known = seat.new.known;
    } }
    ensures known { IsPrefix seat.old.known seat.new.known }
{
    if let Some(region) = journal.region_of(principal, event) {
        board.raise(seat, region);
    }
}
