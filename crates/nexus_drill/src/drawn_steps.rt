// The step of a draw.
ghost use Rattle.std.specs.Prelude.{◌≡◌, ◌<◌, ◌%◌, ◌/◌, IfOk};
ghost use Rattle.policy_history.specs.Events.{event_tree};
ghost use Rattle.cache_machine.specs.Views.{act_tree, step_tree};
ghost use Rattle.nexus_drill.specs.Loads.{act_of, change_of};

use crate::opening::{name, say};
use cache_machine::{Act, Answers, Step};
use policy_history::Event;
use std::alloc::{AllocError, Global};

/// The step of a draw, where the journal holds the label with this number. `docs/FORMATS.md`, "Generated load", states it.
/// An `Err` is want of memory.
pub fn step_of(alloc: Global, draw: u64, held: Option<u64>) -> Result<Step, AllocError>
    ensures { IfOk result
        (λ step. step_tree step ≡ record { actor = draw % 4; act = act_of ((draw / 4) % 10) (change_of held) }) }
{
    Ok(Step {
        actor: draw % 4,
        act: act_of(alloc, draw / 4 % 10, held)?,
    })
}

fn act_of(alloc: Global, kind: u64, held: Option<u64>) -> Result<Act, AllocError>
    ensures { IfOk result (λ act. act_tree act ≡ act_of kind (change_of held)) }
{
    match kind {
        0 => Ok(Act::Write {
            event: change_of(alloc, held)?,
        }),
        1 => Ok(Act::Look {
            op: name(alloc, "read")?,
            object: name(alloc, "f")?,
        }),
        2 => Ok(Act::Count),
        3 => Ok(Act::Snap {
            op: name(alloc, "read")?,
            object: name(alloc, "f")?,
        }),
        4 => Ok(Act::Answer {
            answers: Answers::new(alloc),
        }),
        5 => Ok(Act::Fill),
        6 => Ok(Act::Run),
        7 => Ok(Act::Raise {
            event: change_of(alloc, held)?,
        }),
        8 => Ok(Act::Object),
        _ => Ok(Act::Store),
    }
}

// The change that deletes the label with this number, or says it.
fn change_of(alloc: Global, held: Option<u64>) -> Result<Event, AllocError>
    ensures { IfOk result (λ event. event_tree event ≡ change_of held) }
{
    match held {
        Some(number) => Ok(Event::Delete { number }),
        None => say(alloc),
    }
}
