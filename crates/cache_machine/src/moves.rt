// The move that a step comes to, and what each changes.
ghost use Rattle.std.specs.Prelude.{◌≡◌, ◌<◌, ◌++◌, ◌∷◌, [], length, IfOk, OnErr, OnOk, slice_get, Some};
ghost use Rattle.cache_machine.specs.Moves.{MovesAt, after_move, all_regions, fills, idle_after, raises, slot_count, told_in, with_stage, writes};
ghost use Rattle.cache_machine.specs.Views.{act_tree, actor_tree, move_tree, stage_tree, state_of};
ghost use Rattle.cache_machine.specs.Inner.MoveFunctions.{ComesTo};
ghost use Rattle.cache_machine.specs.Inner.Words.{IsDoable, IsNextOf, IsWorded};
ghost use Rattle.policy_history.specs.Events.{event_tree};

use crate::stages::{Actor, Kept, Move, SLOTS, Stage, World};
use crate::steps::{Act, Step, Told, ToldList};
use policy_history::Event;
use std::alloc::AllocError;
use std::mem;

impl World {
    /// What a step comes to; it changes nothing.
    pub(crate) fn plan(&self, step: &Step) -> Result<Move, AllocError>
        requires { IsWorded (state_of self.now) }
        ensures { IfOk result
            (λ m. MovesAt (state_of self.now) step.now.actor (slice_get (state_of self.now).actors step.now.actor)
            (act_tree step.now.act) (move_tree m)) }
    {
        if step.actor >= self.actors.len() as u64 {
            return Ok(Move::Idle);
        }
        self.plan_of(step.actor, self.actor(step.actor), &step.act)
    }

    fn actor(&self, number: u64) -> &Actor
        requires { number < length self.now.actors.items }
        ensures { slice_get (state_of self.now).actors number ≡ Some (actor_tree result.now) }
    {
        &self.actors[number as usize]
    }

    fn plan_of(&self, number: u64, actor: &Actor, act: &Act) -> Result<Move, AllocError>
        requires principal { actor.now.principal < length self.now.journal.head.principals }
        requires slots { length self.now.slots.items ≡ slot_count }
        requires regions { length self.now.regions.items ≡ all_regions }
        ensures { IfOk result
            (λ m. ComesTo (state_of self.now) number (actor_tree actor.now) (stage_tree actor.now.stage)
            (act_tree act.now) (move_tree m)) }
    {
        match act {
            Act::Write { event } => self.write(actor, event),
            Act::Look { op, object } => self.look(actor, op, object),
            Act::Count => Ok(self.count(actor)),
            Act::Snap { op, object } => self.snap(actor, op, object),
            Act::Answer { answers } => Ok(self.answer(number, actor, answers.as_slice())),
            Act::Fill => Ok(self.fill(actor)),
            Act::Run => Ok(self.run(actor)),
            Act::Raise { event } => self.raise(actor, event),
            Act::Object => Ok(self.object(actor)),
            Act::Store => Ok(self.store(number, actor)),
        }
    }

    /// Takes a move, and adds what it tells, or that nothing was done. An `Err` says that there was no memory, and changes
    /// nothing.
    pub(crate) fn take(
        &mut self,
        number: u64,
        planned: Move,
        told: &mut ToldList,
        idle: &mut u64,
    ) -> Result<(), AllocError>
        requires slots { length self.old.slots.items ≡ slot_count }
        requires regions { length self.old.regions.items ≡ all_regions }
        requires may { IsDoable (state_of self.old) number (move_tree planned) }
        ensures state { OnOk result (state_of self.new ≡ after_move (state_of self.old) number (move_tree planned)) }
        ensures told { OnOk result (told.new ≡ told.old ++ told_in (move_tree planned)) }
        ensures idle { OnOk result (idle.new ≡ idle_after (move_tree planned) idle.old) }
        ensures err { OnErr result
            ((state_of self.new ≡ state_of self.old) × (told.new ≡ told.old) × (idle.new ≡ idle.old)) }
    {
        match planned {
            Move::Idle => *idle = idle.saturating_add(1),
            Move::Goes(stage) => self.go_on(number, stage),
            Move::Tells(verdict, stage) => {
                let Ok(()) = push(told, verdict) else {
                    drop(stage);
                    return Err(AllocError);
                };
                self.go_on(number, stage);
            }
            Move::Fills(kept, stage) => self.put(number, kept, stage),
            Move::Raises(region, event) => self.lift(number, region, event),
            Move::Writes(event) => self.add(number, event)?,
        }
        Ok(())
    }

    /// An actor goes on.
    fn go_on(&mut self, number: u64, stage: Stage)
        requires { number < length self.old.actors.items }
        ensures { state_of self.new ≡ with_stage (state_of self.old) number (stage_tree stage) }
    {
        let_go(mem::replace(&mut self.actors[number as usize].stage, stage));
    }

    /// A verdict is put into the slot of its case.
    fn put(&mut self, number: u64, kept: Kept, stage: Stage)
        requires slots { length self.old.slots.items ≡ slot_count }
        requires number { number < length self.old.actors.items }
        ensures { state_of self.new ≡ after_move (state_of self.old) number (fills kept (stage_tree stage)) }
    {
        self.slots[(kept.case % SLOTS) as usize] = Some(kept);
        self.go_on(number, stage);
    }

    /// An actor takes the lock, and raises a region for an event.
    fn lift(&mut self, number: u64, region: u64, event: Event)
        requires regions { length self.old.regions.items ≡ all_regions }
        requires region { region < all_regions }
        requires number { number < length self.old.actors.items }
        ensures { state_of self.new ≡ after_move (state_of self.old) number (raises region (event_tree event)) }
    {
        self.regions[region as usize] = self.journal.count() + 1;
        self.holder = Some(number);
        self.go_on(number, Stage::Raised { event });
    }

    /// An event becomes the journal's next entry. An `Err` says that there was no memory, and changes nothing.
    fn add(&mut self, number: u64, event: Event) -> Result<(), AllocError>
        requires number { number < length self.old.actors.items }
        requires accepted { IsNextOf (state_of self.old) (slice_get (state_of self.old).actors number)
            (event_tree event) }
        ensures ok { OnOk result
            (state_of self.new ≡ after_move (state_of self.old) number (writes (event_tree event))) }
        ensures err { OnErr result (state_of self.new ≡ state_of self.old) }
    {
        let Ok(spare) = self.journal.reserve(&event) else {
            drop(event);
            return Err(AllocError);
        };
        let actor = self.actor(number);
        let (session, principal) = (actor.session, actor.principal);
        let _due = self.journal.append(session, principal, event, spare);
        self.holder = None;
        self.go_on(number, Stage::Resting { kept: None });
        Ok(())
    }
}

fn push(list: &mut ToldList, told: Told) -> Result<(), AllocError>
    ensures ok { OnOk result (list.new ≡ list.old ++ told ∷ []) }
    ensures err { OnErr result (list.new ≡ list.old) }
{
    match list.push(told) {
        Ok(()) => Ok(()),
        Err(_) => Err(AllocError),
    }
}

// The stage is given up here, and not within a change of the actor, whose proof would go through each kind of stage.
fn let_go(_stage: Stage) {}
