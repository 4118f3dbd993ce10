//! A load of the machine of the cache.
ghost use Rattle.std.specs.Prelude.{◌≡◌, ◌≤◌, ◌-◌, ◌∷◌, [], IfOk, List, OnOk, Some, count_by, length, not};
ghost use Rattle.std.specs.String.{string_bytes};
ghost use Rattle.cache_machine.specs.Machines.{state_in};
ghost use Rattle.cache_machine.specs.Runs.{Happened};
ghost use Rattle.nexus_drill.specs.Inner.{AreLoaded, IsDrawnStep, IsReady, held_after};
ghost use Rattle.nexus_drill.specs.Loads.{IsCoreLine, IsLoad, is_allowed, is_denied, line_of, start};

use crate::drawn_steps::step_of;
use crate::draws::{draw_of, next};
use crate::opening::opening;
use cache_machine::{Machine, Outcome, Told};
use nal_rules::Verdict;
use nx_io::Bytes;
use std::alloc::{AllocError, Global};

/// The line of a generated load of so many steps, drawn from a number: how many steps did nothing, how many changes were
/// written, how many verdicts allowed and denied, and the length of the journal. `docs/FORMATS.md`, "Generated load",
/// states it. An `Err` says that there was no memory.
pub fn core_text(alloc: Global, number: u64, steps: u64) -> Result<Bytes, AllocError>
    ensures { IfOk result (IsCoreLine number steps) }
{
    let outcome = load(alloc, number, steps)?;
    let text = load_line(alloc, steps, outcome)?;
    Ok(Bytes::from_vec(text.into_bytes()))
}

// What the steps leave.
fn load(alloc: Global, number: u64, steps: u64) -> Result<Outcome, AllocError>
    ensures { IfOk result (λ outcome. (happened : List Happened) × IsLoad number steps happened outcome) }
{
    let mut machine = start(alloc)?;
    let _legal = machine.journal().count();
    match take_all(alloc, &mut machine, number, steps) {
        Ok(()) => Ok(machine.finish()),
        Err(AllocError) => {
            drop(machine);
            Err(AllocError)
        }
    }
}

// The machine at the start.
fn start(alloc: Global) -> Result<Machine, AllocError>
    ensures state { IfOk result (λ machine. state_in machine ≡ start) }
    ensures told { IfOk result (λ machine. machine.told ≡ []) }
    ensures idle { IfOk result (λ machine. machine.idle ≡ 0) }
{
    let actors = four_of_alice(alloc)?;
    Machine::new(alloc, opening(alloc)?, &actors)
}

fn four_of_alice(alloc: Global) -> Result<Vec<u32>, AllocError>
    ensures { IfOk result (λ actors. actors.items ≡ 0 ∷ 0 ∷ 0 ∷ 0 ∷ []) }
{
    let mut actors = Vec::new(alloc);
    actors.push(0)?;
    actors.push(0)?;
    actors.push(0)?;
    actors.push(0)?;
    Ok(actors)
}

// Takes so many steps.
fn take_all(alloc: Global, machine: &mut Machine, number: u64, count: u64) -> Result<(), AllocError>
    requires { IsReady machine.old (Some 3) }
    ensures { OnOk result (AreLoaded number machine.old count machine.new) }
{
    let mut x = number;
    let mut held = Some(3);
    for _place in 0..count {
        x = next(x);
        take(alloc, machine, draw_of(x), &mut held)?;
    }
    Ok(())
}

// Takes the step of a draw, and tells which label the journal then holds.
fn take(
    alloc: Global,
    machine: &mut Machine,
    draw: u64,
    held: &mut Option<u64>,
) -> Result<(), AllocError>
    requires { IsReady machine.old held.old }
    ensures { OnOk result (IsDrawnStep machine.old draw machine.new held.new) }
{
    let before = machine.journal().count();
    let step = step_of(alloc, draw, *held)?;
    machine.step(&step)?;
    *held = held_after(*held, before, machine.journal().count());
    Ok(())
}

// The label that a journal holds which had this length before a step and that one after it: it changes with each entry.
fn held_after(held: Option<u64>, before: u64, after: u64) -> Option<u64>
    ensures { result ≡ held_after held before after }
{
    if before == after {
        return held;
    }
    match held {
        Some(_) => None,
        None => Some(after),
    }
}

// The line of what the steps leave.
fn load_line(alloc: Global, steps: u64, outcome: Outcome) -> Result<String, AllocError>
    requires { 4 ≤ length outcome.journal.entries }
    ensures { IfOk result (λ text. string_bytes text ≡
        line_of steps outcome.idle (length outcome.journal.entries - 4) (count_by is_allowed outcome.told)
        (count_by is_denied outcome.told) (length outcome.journal.entries)) }
{
    let idle = outcome.idle;
    let length = outcome.journal.count();
    let writes = length - 4;
    let allowed = allowed(outcome.told.as_slice());
    let denied = denied(outcome.told.as_slice());
    drop(outcome);
    format!(in alloc;
        "steps {steps} idle {idle} writes {writes} allowed {allowed} denied {denied} length {length}\n"
    )
}

fn allowed(told: &[Told]) -> u64
    ensures { result ≡ count_by is_allowed told.now }
{
    told.iter().filter(|told| is_allowed(told)).count() as u64
}

fn denied(told: &[Told]) -> u64
    ensures { result ≡ count_by is_denied told.now }
{
    told.iter().filter(|told| !is_allowed(told)).count() as u64
}

fn is_allowed(told: &Told) -> bool
    ensures allowed { result ≡ is_allowed told.now }
    ensures denied { result ≡ not (is_denied told.now) }
{
    match told.verdict {
        Verdict::Allowed => true,
        Verdict::Denied(_) => false,
    }
}
