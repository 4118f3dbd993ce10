//! The machine, and lists of steps on it.
ghost use Rattle.std.specs.Prelude.{◌≡◌, ◌<◌, ◌≤◌, ◌+◌, ◌^◌, [], length, replicate, None, map, All, IfOk, OnErr, OnOk};
ghost use Rattle.policy_history.specs.Values.{entry_trees, greatest_of};
ghost use Rattle.cache_machine.specs.Moves.{all_regions, slot_count};
ghost use Rattle.cache_machine.specs.Machines.{IsAsBefore, IsStepped, first_actors, first_state, state_in};
ghost use Rattle.cache_machine.specs.Views.{actor_tree, step_tree};

use crate::stages::{Actor, Kept, REGIONS, SLOTS, Stage, World};
use crate::steps::{Outcome, Step, ToldList};
use policy_history::Journal;
use std::alloc::{AllocError, Global};
use std::marker::Model;

/// A journal, a cache of verdicts, and actors that use both, one step after another. Contracts see the state of all this,
/// what was told, and how many steps did nothing. Each verdict in the cache is right at its point.
#[derive(Drop)]
pub struct Machine {
    world: World,
    told: ToldList,
    idle: u64,
}

impl Model for Machine {
    ghost use Rattle.std.specs.Coded.{codes};
    ghost use Rattle.nal_term.specs.contracts.terms.Term as t;
    ghost use Rattle.nal_term.specs.contracts.formulas.Formula as f;
    ghost use Rattle.cache_machine.specs.Machines.{MachineValue};

    ghost Value = { MachineValue };

    ghost coded = { Prim.hlevel (codes, t.the_row.coded, f.the_row.coded) };

    ghost use Rattle.cache_machine.specs.Views.{state_of};
    ghost use Rattle.cache_machine.specs.Inner.Words.{IsWorded};

    ghost view = { λ m. record { world = m.world; told = m.told; idle = m.idle } };

    ghost invariant = { λ m. IsWorded (state_of m.world) };
}

impl Machine {
    /// A machine whose actors have these principals and rest. Their sessions are numbered on from the journal's greatest.
    /// An `Err` says that there was no memory for it; the journal is then given up.
    pub fn new(alloc: Global, journal: Journal, actors: &Vec<u32>) -> Result<Machine, AllocError>
        requires principals { All (λ p. p < length journal.head.principals) actors.now.items }
        requires sessions { greatest_of (entry_trees journal.entries) + length actors.now.items < 2 ^ 64 }
        ensures state { IfOk result
            (λ machine. state_in machine ≡ first_state journal.head (entry_trees journal.entries) actors.now.items) }
        ensures told { IfOk result (λ machine. machine.told ≡ []) }
        ensures idle { IfOk result (λ machine. machine.idle ≡ 0) }
    {
        match Beginning::of(alloc, &journal, actors) {
            Err(AllocError) => {
                drop(journal);
                Err(AllocError)
            }
            Ok(
                Beginning {
                    slots,
                    regions,
                    actors,
                },
            ) => Ok(Machine {
                world: World {
                    alloc,
                    journal,
                    slots,
                    regions,
                    holder: None,
                    actors,
                },
                told: ToldList::new(alloc),
                idle: 0,
            }),
        }
    }

    /// The journal.
    pub fn journal(&self) -> &Journal
        ensures { result.now ≡ self.now.world.journal }
    {
        &self.world.journal
    }

    /// One step. `docs/LOGIC.md`, "The machine of the cache", says what each does; one that does nothing is counted. An
    /// `Err` says that there was no memory, and all is as before.
    pub fn step(&mut self, step: &Step) -> Result<(), AllocError>
        ensures step { OnOk result (IsStepped self.old (step_tree step.now) self.new) }
        ensures err { OnErr result (IsAsBefore self.old self.new) }
    {
        let planned = self.world.plan(step)?;
        self.world
            .take(step.actor, planned, &mut self.told, &mut self.idle)
    }

    /// What the steps left.
    pub fn finish(self) -> Outcome
        ensures journal { result.journal ≡ self.world.journal }
        ensures told { result.told ≡ self.told }
        ensures idle { result.idle ≡ self.idle }
    {
        let Machine { world, told, idle } = self;
        let World { journal, .. } = world;
        Outcome {
            journal,
            told,
            idle,
        }
    }
}

/// What a machine holds at the start, beside the journal. It is made before the journal is taken, which is given up in one
/// place so.
#[derive(Drop)]
struct Beginning {
    slots: Vec<Option<Kept>>,
    regions: Vec<u64>,
    actors: Vec<Actor>,
}

impl Beginning {
    fn of(alloc: Global, journal: &Journal, actors: &Vec<u32>) -> Result<Beginning, AllocError>
        requires sessions { greatest_of (entry_trees journal.now.entries) + length actors.now.items < 2 ^ 64 }
        ensures slots { IfOk result (λ made. made.slots.items ≡ replicate slot_count None) }
        ensures regions { IfOk result
            (λ made. made.regions.items ≡ replicate all_regions (length journal.now.entries)) }
        ensures actors { IfOk result
            (λ made. map actor_tree made.actors.items
            ≡ first_actors (greatest_of (entry_trees journal.now.entries) + 1) actors.now.items) }
    {
        Ok(Beginning {
            slots: empty_slots(alloc)?,
            regions: Vec::from_elem(alloc, journal.count(), REGIONS as usize)?,
            actors: first_actors(alloc, journal.greatest_session(), actors)?,
        })
    }
}

// Slots that keep nothing.
fn empty_slots(alloc: Global) -> Result<Vec<Option<Kept>>, AllocError>
    ensures { IfOk result (λ slots. slots.items ≡ replicate slot_count None) }
{
    let mut slots = Vec::new(alloc);
    for _place in 0..SLOTS {
        slots.push(None)?;
    }
    Ok(slots)
}

// The actors at the start, whose sessions follow this one.
fn first_actors(alloc: Global, last: u64, principals: &[u32]) -> Result<Vec<Actor>, AllocError>
    requires { last + length principals.now < 2 ^ 64 }
    ensures { IfOk result (λ actors. map actor_tree actors.items ≡ first_actors (last + 1) principals.now) }
{
    let mut session = last;
    let mut actors = Vec::new(alloc);
    for principal in principals {
        session += 1;
        actors.push(Actor {
            principal: *principal,
            session,
            stage: Stage::Resting { kept: None },
        })?;
    }
    Ok(actors)
}
