//! Whole lists of steps.
ghost use Rattle.std.specs.Prelude.{◌<◌, ◌+◌, ◌^◌, length, map, All, IfOk, OnOk};
ghost use Rattle.cache_machine.specs.Machines.{AreTaken, IsOutcome, first_state};
ghost use Rattle.cache_machine.specs.Views.{step_tree};
ghost use Rattle.policy_history.specs.Values.{entry_trees, greatest_of};

use crate::machine::Machine;
use crate::steps::{Outcome, Step};
use policy_history::Journal;
use std::alloc::{AllocError, Global};

/// Takes all steps in their order, from a journal and actors with these principals, whose sessions are numbered on from
/// the journal's greatest. An `Err` says that there was no memory; the journal is then given up.
pub fn drive(
    alloc: Global,
    journal: Journal,
    actors: &Vec<u32>,
    steps: &Vec<Step>,
) -> Result<Outcome, AllocError>
    requires principals { All (λ p. p < length journal.head.principals) actors.now.items }
    requires sessions { greatest_of (entry_trees journal.entries) + length actors.now.items < 2 ^ 64 }
    ensures { IfOk result
        (IsOutcome (first_state journal.head (entry_trees journal.entries) actors.now.items)
        (map step_tree steps.now.items)) }
{
    let mut machine = Machine::new(alloc, journal, actors)?;
    take_all(&mut machine, steps)?;
    Ok(machine.finish())
}

// Takes all steps in their order.
fn take_all(machine: &mut Machine, steps: &[Step]) -> Result<(), AllocError>
    ensures { OnOk result (AreTaken machine.old (map step_tree steps.now) machine.new) }
{
    for step in steps {
        machine.step(step)?;
    }
    Ok(())
}
