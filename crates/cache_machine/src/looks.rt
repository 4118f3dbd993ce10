// What an actor reads of the words that it shares with the others.
ghost use Rattle.std.specs.Prelude.{◌≡◌, ◌<◌, ℕ, length, IfOk, option_map};
ghost use Rattle.cache_machine.specs.Moves.{after_verdict, all_regions, place_in, policy, slot_at, slot_count};
ghost use Rattle.cache_machine.specs.Inner.MoveFunctions.{count_move, found_move, hit_in, look_move, looked_at, object_move, store_move};
ghost use Rattle.cache_machine.specs.Views.{move_tree, stage_tree, state_of};

use crate::stages::{Actor, Kept, Move, Place, SLOTS, Stage, World};
use crate::steps::Told;
use nal_rules::Verdict;
use nal_term::Name;
use policy_history::Found;
use std::alloc::AllocError;

impl World {
    /// Look copies the word of the slot of the case.
    pub(crate) fn look(&self, actor: &Actor, op: &Name, object: &Name) -> Result<Move, AllocError>
        requires principal { actor.now.principal < length self.now.journal.head.principals }
        requires slots { length self.now.slots.items ≡ slot_count }
        ensures { IfOk result
            (λ m. move_tree m
            ≡ look_move (state_of self.now) actor.now.principal (stage_tree actor.now.stage) op.now object.now) }
    {
        match &actor.stage {
            Stage::Resting { .. } => Ok(self.looked(self.place(actor.principal, op, object)?)),
            _ => Ok(Move::Idle),
        }
    }

    /// The place of an operation on the object with this name. None exactly where it has no case number.
    fn place(&self, principal: u32, op: &Name, object: &Name) -> Result<Option<Place>, AllocError>
        requires { principal < length self.now.journal.head.principals }
        ensures { IfOk result (λ place. place ≡ place_in (policy (state_of self.now)) principal op.now object.now) }
    {
        match self.journal.case_of(self.alloc, principal, op, object)? {
            Found::NoObject => Ok(None),
            Found::Case { number, object, .. } => Ok(place_of(number, object)),
        }
    }

    fn looked(&self, place: Option<Place>) -> Move
        requires slots { length self.now.slots.items ≡ slot_count }
        ensures { move_tree result ≡ looked_at (state_of self.now) place }
    {
        match place {
            None => Move::Idle,
            Some(place) => Move::Goes(Stage::Looked {
                place,
                slot: self.slot(place.case),
            }),
        }
    }

    /// The word of the slot of a case.
    fn slot(&self, case: u64) -> Option<Kept>
        requires slots { length self.now.slots.items ≡ slot_count }
        ensures { result ≡ slot_at (state_of self.now) case }
    {
        self.slots[(case % SLOTS) as usize]
    }

    /// Count copies the length of the journal.
    pub(crate) fn count(&self, actor: &Actor) -> Move
        ensures { move_tree result ≡ count_move (state_of self.now) (stage_tree actor.now.stage) }
    {
        match &actor.stage {
            Stage::Looked { place, slot } => Move::Goes(Stage::Counted {
                place: *place,
                slot: *slot,
                at: self.journal.count(),
            }),
            _ => Move::Idle,
        }
    }

    /// Object copies the word of the object's region.
    pub(crate) fn object(&self, actor: &Actor) -> Move
        requires regions { length self.now.regions.items ≡ all_regions }
        ensures { move_tree result ≡ object_move (state_of self.now) (stage_tree actor.now.stage) }
    {
        match &actor.stage {
            Stage::Counted { place, slot, at } => Move::Goes(Stage::Half {
                place: *place,
                slot: *slot,
                at: *at,
                word: self.regions[(place.object % 256) as usize],
            }),
            _ => Move::Idle,
        }
    }

    /// Store loads the word of the subject's region, and tells a hit.
    pub(crate) fn store(&self, number: u64, actor: &Actor) -> Move
        requires principal { actor.now.principal < length self.now.journal.head.principals }
        requires regions { length self.now.regions.items ≡ all_regions }
        ensures { move_tree result
            ≡ store_move (state_of self.now) number actor.now.principal (stage_tree actor.now.stage) }
    {
        match &actor.stage {
            Stage::Half {
                place,
                slot,
                at,
                word,
            } => {
                let store = self.regions[256 + actor.principal as usize % 256];
                found(number, *at, hit(*slot, place.case, *word, store))
            }
            _ => Move::Idle,
        }
    }
}

fn place_of(number: Option<u64>, object: u64) -> Option<Place>
    ensures { result ≡ option_map (λ (k : ℕ). record { case = k; object = object }) number }
{
    match number {
        None => None,
        Some(case) => Some(Place { case, object }),
    }
}

/// The verdict that a slot's word gives for a case, where both regions' words are at most equal to its point.
fn hit(slot: Option<Kept>, case: u64, object: u64, store: u64) -> Option<Verdict>
    ensures { result ≡ hit_in slot case object store }
{
    match slot {
        None => None,
        Some(kept) => {
            if kept.case == case && object <= kept.point && store <= kept.point {
                Some(kept.verdict)
            } else {
                None
            }
        }
    }
}

fn found(actor: u64, at: u64, verdict: Option<Verdict>) -> Move
    ensures { move_tree result ≡ found_move actor at verdict }
{
    match verdict {
        None => Move::Goes(Stage::Missed),
        Some(verdict) => Move::Tells(
            Told {
                actor,
                at,
                hit: true,
                verdict,
            },
            after_verdict(verdict, None),
        ),
    }
}

/// How far an actor is that was told a verdict, with what it may keep of it.
pub fn after_verdict(verdict: Verdict, kept: Option<Kept>) -> Stage
    ensures { stage_tree result ≡ after_verdict verdict kept }
{
    match verdict {
        Verdict::Allowed => Stage::Allowed { kept },
        Verdict::Denied(_) => Stage::Resting { kept },
    }
}
