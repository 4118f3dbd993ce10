//! Kept verdicts: how a session looks for one, and keeps one.
ghost use Rattle.std.specs.Prelude.{◌≡◌, ◌↔◌, ℕ, ◌<◌, ◌≤◌, [], ◌∷◌, ◌++◌, length, take, Some};
ghost use Rattle.verdict_words.specs.Histories.{IsPrefix};
ghost use Rattle.verdict_words.specs.Words.{IsHeld, IsPlace, IsSlot, Spells, slot_word, spelling, most_cases, most_entries};
ghost use Rattle.verdict_words.specs.Orders.{Steps, item_steps, stores};
ghost use Rattle.verdict_words.specs.Answers.{IsAnswer, HitIsRight};
ghost use Rattle.verdict_words.specs.declared.places.Held.{Held};
ghost use Rattle.verdict_words.specs.declared.views.Item.TheVariants.{Loaded, Filled};

use crate::board::Board;
use crate::matter::Matter;
use crate::pass::Pass;
use crate::places::{CasePlace, Held, Look};
use std::marker::Brand;

const LOW_20: u64 = 0xf_ffff;

// The word that keeps a verdict.
fn spelled(case: u64, at: u64, held: &Held) -> u64
    requires { (case < most_cases) × (at ≤ most_entries) × IsHeld held.now }
    ensures { result ≡ spelling case at held.now }
{
    (held.fault << 56) + (held.line << 44) + (held.code << 40) + (case << 20) + at
}

// What the word of a slot says of the case, if anything.
#[inline(always)]
fn kept_for(slot: u64, case: u64) -> Option<(u64, Held)>
    requires { IsSlot slot }
    ensures { (at : ℕ) (held : Held) → (result ≡ Some (at, held)) ↔ Spells slot case at held }
{
    let held = Held {
        code: (slot >> 40) & 15,
        line: (slot >> 44) & 0xfff,
        fault: slot >> 56,
    };
    if slot == 0 || (slot >> 20) & LOW_20 != case {
        return None;
    }
    Some((slot & LOW_20, held))
}

// The answer of a look to the words that it loaded.
#[inline(always)]
fn answer(case: u64, slot: u64, count: u64, object: u64, store: u64) -> Look
    requires { IsSlot slot }
    ensures { IsAnswer case slot count object store result }
{
    let Some((at, held)) = kept_for(slot, case) else {
        return Look::Miss;
    };
    if object.max(store) > at {
        return Look::Miss;
    }
    Look::Hit { at: count, held }
}

impl<M: Matter> Board<M> {
    /// Looks for a kept verdict, and lets the pass see the history at the load of the count. A hit comes exactly where the
    /// slot's word spells the case at a point to which both regions' words are at most equal; its verdict is then right
    /// on all that is seen. The words are those that four loads within this call found (`docs/ARCHITECTURE.md`, "The board").
    #[inline]
    pub fn look(&self, pass: &mut Pass<M>, place: &CasePlace) -> Look
        requires board { pass.old.board ≡ self.now }
        requires place { IsPlace place.now }
        requires home { M.home self.now.origin.setting pass.old.seen place.now }
        ensures seen { IsPrefix pass.old.seen pass.new.seen }
        ensures loaded { (slot object store : ℕ)
            × (pass.new
            ≡ record pass.old {
              seen = pass.new.seen;
              trail = pass.old.trail
                  ++ Loaded place.now slot (length pass.new.seen) object store ∷ [];
              known = pass.new.known;
            })
            × IsAnswer place.now.case slot (length pass.new.seen) object store result
            × Steps pass.old.known
            (item_steps pass.old.session (Loaded place.now slot (length pass.new.seen) object store))
            pass.new.known }
        ensures right { HitIsRight (M.right self.now.origin.setting pass.new.seen place.now.case) result }
    {
        let _has_words = &self.words;
        let slot = self.load_slot::<Brand>(&mut pass.place, place);
        let count = self.load_count(&mut pass.place);
        let object = self.load_object(&mut pass.place, place);
        let store = self.load_store(&mut pass.place, place);
        let found = answer(place.case, slot, count, object, store);
        pass.at.value = count;
        found
    }

    /// Keeps a verdict that was right after the first `at` entries that the pass has seen, by one store into the case's slot.
    pub fn fill(&self, pass: &mut Pass<M>, place: &CasePlace, at: u64, held: &Held)
        requires board { pass.old.board ≡ self.now }
        requires place { IsPlace place.now }
        requires at { at ≤ length pass.old.seen }
        requires held { IsHeld held.now }
        requires right { M.right self.now.origin.setting (take at pass.old.seen) place.now.case held.now }
        ensures pass { pass.new
            ≡ record pass.old
            { trail = pass.old.trail ++ Filled place.now.case at held.now ∷ []; known = pass.new.known } }
        ensures step { (found : ℕ)
            × Steps pass.old.known
            (stores pass.old.session (slot_word place.now.case) (spelling place.now.case at held.now) found ∷ [])
            pass.new.known }
    {
        let _has_words = &self.words;
        self.store_slot::<Brand>(
            &mut pass.place,
            place,
            at,
            held,
            spelled(place.case, at, held),
        );
    }
}
