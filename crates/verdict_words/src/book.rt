//! The steps of the owner of the history.
ghost use Rattle.std.specs.Prelude.{◌≡◌, ◌≢◌, ℕ, ◌+◌, ◌-◌, ◌^◌, ◌<◌, ◌≤◌, ◌↔◌, [], ◌∷◌, ◌++◌, length, All, Some, None};
ghost use Rattle.verdict_words.specs.Histories.{IsPrefix, own};
ghost use Rattle.verdict_words.specs.Words.{most_entries, region_word, region_count};
ghost use Rattle.verdict_words.specs.Orders.{Steps, stores, publishes};
ghost use Rattle.verdict_words.specs.Settling.{AreGathered, without};
ghost use Rattle.verdict_words.specs.Values.{met_seen};
ghost use Rattle.verdict_words.specs.declared.views.Item.TheVariants.{Met};

use crate::board::Board;
use crate::mark::Mark;
use crate::matter::Matter;
use crate::padded::Padded;
use crate::pass::Pass;
use crate::seat::BookSeat;
use std::marker::Brand;

impl<M: Matter> Board<M> {
    /// A pass for a new session, which has seen the whole history.
    pub fn enter(&self, seat: &mut BookSeat<M>) -> Pass<M>
        requires board { seat.old.board ≡ self.now }
        requires room { seat.old.next < 2 ^ 64 - 1 }
        ensures pass { result
            ≡ record {
              board = self.now;
              session = seat.old.next;
              seen = seat.old.entries;
              trail = [];
              known = seat.old.known;
            } }
        ensures unused { All (λ entry. M.session entry ≢ seat.old.next) seat.old.entries }
        ensures seat { seat.new ≡ record seat.old { next = seat.old.next + 1 } }
    {
        let place = self.admit(&mut seat.place);
        let session = seat.next;
        seat.next += 1;
        let at = Padded::new(seat.count);
        Pass {
            place,
            session,
            at,
            board: Mark::of(self),
        }
    }

    /// Raises the word of a region above the length of the history, so that every case of that region misses: one store.
    pub fn raise(&self, seat: &mut BookSeat<M>, region: u64)
        requires board { seat.old.board ≡ self.now }
        requires region { region < region_count }
        requires free { seat.old.raised ≡ None }
        requires room { length seat.old.entries < most_entries }
        ensures seat { seat.new ≡ record seat.old { raised = Some region; known = seat.new.known } }
        ensures step { (found : ℕ)
            × Steps seat.old.known (stores 0 (region_word region) (length seat.old.entries + 1) found ∷ [])
            seat.new.known }
    {
        self.store_region(&mut seat.place, region, seat.count + 1);
    }

    /// Lets the history grow by an entry of the session that was met last. The region that the entry touches, if any, was
    /// raised before. It is one add to the count.
    pub fn publish(&self, seat: &mut BookSeat<M>, entry: &M::Entry)
        requires board { seat.old.board ≡ self.now }
        requires turn { (seat.old.turn ≢ 0) × (M.session entry.now ≡ seat.old.turn) }
        requires room { length seat.old.entries < most_entries }
        requires region { (r : ℕ) → r < region_count
            → (M.touches self.now.origin.setting seat.old.entries entry.now r ↔ (seat.old.raised ≡ Some r)) }
        ensures seat { seat.new
            ≡ record seat.old {
              entries = seat.old.entries ++ entry.now ∷ [];
              lag = M.session entry.now
                  ∷ seat.old.lag;
              raised = None;
              known = seat.new.known;
            } }
        ensures step { Steps seat.old.known (publishes (length seat.old.entries) ∷ []) seat.new.known }
    {
        self.add_to_count::<Brand>(&mut seat.place, entry);
        seat.count += 1;
    }

    /// Lets a pass see the whole history, and its session publish. What the pass had seen begins the history, and the
    /// history has no entry of its session beside those that stood when it was last met, unless it has published since. Both
    /// then know the order of all atomic steps, of which each knew a beginning.
    pub fn meet(&self, seat: &mut BookSeat<M>, pass: Pass<M>) -> Pass<M>
        requires board { seat.old.board ≡ self.now }
        requires pass { pass.board ≡ self.now }
        ensures pass { result
            ≡ record {
              board = self.now;
              session = pass.session;
              seen = seat.old.entries;
              trail = pass.trail
                  ++ Met (length seat.old.entries) ∷ [];
              known = seat.new.known;
            } }
        ensures seat { seat.new
            ≡ record seat.old { turn = pass.session; lag = without pass.session seat.old.lag; known = seat.new.known } }
        ensures known { AreGathered self.now seat.old.next seat.old.entries seat.old.known (pass ∷ []) seat.new.known }
        ensures seen { IsPrefix pass.seen seat.old.entries }
        ensures session { (self.now.origin.first ≤ pass.session) × (pass.session < seat.old.next) × (0 < pass.session) }
        ensures own { All (λ s. s ≢ pass.session) seat.old.lag
            → (own M.session seat.old.entries pass.session ≡ own M.session pass.seen pass.session)
            × (own M.session seat.old.entries pass.session ≡ own M.session (met_seen pass) pass.session) }
    {
        let Pass {
            place,
            session,
            at: _,
            board,
        } = pass;
        let _has_words = &self.words;
        self.receive(&mut seat.place, place);
        self.check_held(&mut seat.place);
        let place = self.give_back(&mut seat.place);
        Pass {
            place,
            session,
            at: Padded::new(seat.count),
            board,
        }
    }
}
