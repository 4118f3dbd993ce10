//! Passes that are met together, so that what each of them did is known at one moment.
ghost use Rattle.std.specs.Prelude.{◌≡◌, ℕ, ◌<◌, ◌≤◌, List, [], ◌∷◌, ◌++◌, length, take, map, All};
ghost use Rattle.verdict_words.specs.Words.{most_entries};
ghost use Rattle.verdict_words.specs.Inner.Steps.{receiving, releasing};
ghost use Rattle.verdict_words.specs.Values.{seen_of, known_of};
ghost use Rattle.verdict_words.specs.Settling.{all_met, all_of, flat, items_of, last_turn, without_all, AreGathered, IsMet};
ghost use Rattle.verdict_words.specs.Inner.Seats.{IsBooks};
ghost use Rattle.verdict_words.specs.Inner.Settling.{met_held, view_of, away, cut_as, receiving_all, releasing_all, held_of, sessions_of, IsHolding, IsHoldingMany};

use crate::board::Board;
use crate::mark::Mark;
use crate::matter::Matter;
use crate::pass::Pass;
use crate::rolls::Roll;
use crate::seat::BookSeat;
use crate::steps::Place;
use std::collections::VecDeque;

impl<M: Matter> Board<M> {
    /// Meets each of the passes, list by list, and behind them those that the rolls hold; but all are taken in before the first
    /// is given back. So there is one order of all atomic steps that were made on the board, which then all know: it begins
    /// with what each knew before, and of each session it has the steps that its pass's trail tells, in order. The passes
    /// come back in lists as they came; those of the rolls are let go. It takes no memory.
    pub fn settle(
        &self,
        seat: &mut BookSeat<M>,
        passes: Vec<Vec<Pass<M>>>,
        unused: Vec<Roll<M>>,
    ) -> Vec<Vec<Pass<M>>>
        requires board { seat.old.board ≡ self.now }
        requires passes { All (λ pass. pass.board ≡ self.now) (all_of (items_of passes.items) unused.items) }
        ensures passes { items_of result.items
            ≡ map (all_met self.now seat.old.entries seat.new.known) (items_of passes.items) }
        ensures seat { seat.new ≡ record seat.old {
          turn = last_turn seat.old.turn (all_of (items_of passes.items) unused.items);
          lag = without_all (all_of (items_of passes.items) unused.items) seat.old.lag;
          known = seat.new.known;
        } }
        ensures each { All (IsMet M.session seat.old) (all_of (items_of passes.items) unused.items) }
        ensures known { AreGathered self.now seat.old.next seat.old.entries seat.old.known
            (all_of (items_of passes.items) unused.items) seat.new.known }
    {
        let mut passes = passes;
        self.hold_lists(&mut seat.place, &mut passes);
        let count = self.receive_rolls(&mut seat.place, unused);
        self.check_held(&mut seat.place);
        self.give_lists(&mut seat.place, seat.count, &mut passes);
        self.let_go(&mut seat.place, count);
        passes
    }

    // The book takes in what each pass of each list knows.
    fn hold_lists(&self, place: &mut Place<M>, lists: &mut Vec<Vec<Pass<M>>>)
        requires boards { All (λ pass. pass.board ≡ self.now) (flat (items_of lists.old.items)) }
        requires place { (place.old.table_id ≡ self.now.table) × IsBooks place.old.me }
        ensures place { (place.new.table_id ≡ self.now.table) × (place.new.me
            ≡ (receiving_all place.old.me.0 (flat (items_of lists.old.items)), [])) }
        ensures lists { items_of lists.new.items ≡ map (map away) (items_of lists.old.items) }
    {
        for i in 0..lists.len() {
            let list = &mut lists[i];
            self.hold_all(place, list);
        }
    }

    // The book takes in what each pass knows.
    fn hold_all(&self, place: &mut Place<M>, passes: &mut Vec<Pass<M>>)
        requires boards { All (λ pass. pass.board ≡ self.now) passes.old.items }
        requires place { (place.old.table_id ≡ self.now.table) × IsBooks place.old.me }
        ensures place { (place.new.table_id ≡ self.now.table) × (place.new.me
            ≡ (receiving_all place.old.me.0 passes.old.items, [])) }
        ensures passes { passes.new.items ≡ map away passes.old.items }
    {
        for i in 0..passes.len() {
            let pass = &mut passes[i];
            self.hold(place, pass);
        }
    }

    // The book takes in what one pass knows. Its seat can't be left empty, so what it knows goes to a seat of its own.
    fn hold(&self, place: &mut Place<M>, pass: &mut Pass<M>)
        requires board { pass.old.board ≡ self.now }
        requires place { (place.old.table_id ≡ self.now.table) × IsBooks place.old.me }
        ensures place { (place.new.table_id ≡ self.now.table) × (place.new.me
            ≡ (receiving place.old.me.0 (view_of pass.old), [])) }
        ensures pass { pass.new ≡ away pass.old }
    {
        let _has_words = &self.words;
        let known = self.yield_pass(&mut pass.place);
        pass.at.value = 0;
        self.receive(place, known);
    }

    // The book takes in what the passes of each roll know. How many they are: so many that 64 bits might not hold it.
    fn receive_rolls(&self, place: &mut Place<M>, rolls: Vec<Roll<M>>) -> u128
        requires boards { All (λ pass. pass.board ≡ self.now) (flat rolls.items) }
        requires place { (place.old.table_id ≡ self.now.table) × IsBooks place.old.me }
        ensures place { (place.new.table_id ≡ self.now.table) × (place.new.me
            ≡ (receiving_all place.old.me.0 (flat rolls.items), [])) }
        ensures count { result ≡ length (flat rolls.items) }
    {
        let mut rolls = VecDeque::from(rolls);
        let mut count = 0;
        while let Some(roll) = rolls.pop_front() {
            count += u128::from(self.receive_roll(place, roll));
        }
        count
    }

    // The book takes in what the passes of one roll know. How many they are.
    fn receive_roll(&self, place: &mut Place<M>, roll: Roll<M>) -> u64
        requires boards { All (λ pass. pass.board ≡ self.now) roll }
        requires place { (place.old.table_id ≡ self.now.table) × IsBooks place.old.me }
        ensures place { (place.new.table_id ≡ self.now.table) × (place.new.me
            ≡ (receiving_all place.old.me.0 roll, [])) }
        ensures count { result ≡ length roll }
    {
        let count = roll.len();
        let mut roll = roll;
        while let Some(pass) = roll.next() {
            self.receive_pass(place, pass);
        }
        count
    }

    // The book takes in what one pass knows, which is let go.
    fn receive_pass(&self, place: &mut Place<M>, pass: Pass<M>)
        requires board { pass.board ≡ self.now }
        requires place { (place.old.table_id ≡ self.now.table) × IsBooks place.old.me }
        ensures place { (place.new.table_id ≡ self.now.table) × (place.new.me
            ≡ (receiving place.old.me.0 (view_of pass), [])) }
    {
        let _has_words = &self.words;
        let Pass { place: known, .. } = pass;
        self.receive(place, known);
    }

    // The book gives each pass of each list back what it holds of it. It may hold more.
    fn give_lists(&self, place: &mut Place<M>, count: u64, lists: &mut Vec<Vec<Pass<M>>>)
        requires place { place.old.table_id ≡ self.now.table }
        requires short { count ≤ most_entries }
        requires held { (rest : List ℕ) × IsHolding self.now count
            (sessions_of (flat (items_of lists.old.items)) ++ rest) place.old.me }
        ensures place { (place.new.table_id ≡ self.now.table) × (place.new.me ≡ (
          releasing_all
              (take (length (flat (items_of lists.old.items))) (held_of place.old.me.0)) place.old.me.0,
          [],
        )) }
        ensures lists { items_of lists.new.items ≡ cut_as (items_of lists.old.items)
            (map (met_held self.now (seen_of place.old.me.0) (known_of place.old.me.0)) (held_of place.old.me.0)) }
    {
        for i in 0..lists.len() {
            let list = &mut lists[i];
            self.give_all(place, count, list);
        }
    }

    // The book gives each pass back what it holds of it. It may hold more.
    fn give_all(&self, place: &mut Place<M>, count: u64, passes: &mut Vec<Pass<M>>)
        requires place { place.old.table_id ≡ self.now.table }
        requires short { count ≤ most_entries }
        requires held { (rest : List ℕ) × IsHolding self.now count (sessions_of passes.old.items ++ rest) place.old.me }
        ensures place { (place.new.table_id ≡ self.now.table) × (place.new.me
            ≡ (releasing_all (take (length passes.old.items) (held_of place.old.me.0)) place.old.me.0, [])) }
        ensures passes { passes.new.items ≡ take (length passes.old.items)
            (map (met_held self.now (seen_of place.old.me.0) (known_of place.old.me.0)) (held_of place.old.me.0)) }
    {
        for i in 0..passes.len() {
            let pass = &mut passes[i];
            self.give(place, count, pass);
        }
    }

    // The book gives one pass back what it holds of it.
    fn give(&self, place: &mut Place<M>, count: u64, pass: &mut Pass<M>)
        requires place { place.old.table_id ≡ self.now.table }
        requires short { count ≤ most_entries }
        requires held { (rest : List ℕ) × IsHolding self.now count (pass.old.session ∷ rest) place.old.me }
        ensures place { (place.new.table_id ≡ self.now.table) × (place.new.me ≡ (releasing place.old.me.0, [])) }
        ensures pass { pass.new ∷ [] ≡ map (met_held self.now (seen_of place.old.me.0) (known_of place.old.me.0))
            (take 1 (held_of place.old.me.0)) }
    {
        pass.place = self.give_back(place);
        pass.at.value = count;
        pass.board = Mark::of(self);
    }

    // The book gives all passes back that it holds, so many, and they are let go.
    fn let_go(&self, place: &mut Place<M>, count: u128)
        requires place { place.old.table_id ≡ self.now.table }
        requires held { IsHoldingMany count place.old.me }
        ensures place { (place.new.table_id ≡ self.now.table) × (place.new.me
            ≡ (releasing_all (held_of place.old.me.0) place.old.me.0, [])) }
    {
        for _ in 0..count {
            self.give_back(place);
        }
    }
}
