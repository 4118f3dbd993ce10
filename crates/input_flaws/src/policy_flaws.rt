//! What is wrong with the line of a policy that is refused.
ghost use Rattle.std.specs.Prelude.{◌≡◌, ◌≤◌, IfOk, length};
ghost use Rattle.run_streams.specs.Flaws.{flaw_tree};
ghost use Rattle.input_flaws.specs.PolicyFlaws.{IsFrontFlaw, IsPolicyFlaw, refusal_flaw};
ghost use Rattle.policy_history.specs.Laws.{refusal_number};
ghost use Rattle.policy_history.specs.declared.events.Refusal.{Refusal};
ghost use Rattle.journal_text.specs.PolicyText.{most_bytes};

use crate::flaws::{flaw_at, line_flaw};
use journal_text::{PolicyError, PolicyFront, read_front, refusal_name};
use run_streams::Flaw;
use std::alloc::{AllocError, Global};

/// What is wrong with the line of a text by which its policy is refused: the name of the refusal, where the line is that of an entry. An
/// `Err` is want of memory. `docs/FORMATS.md`, "What is wrong with an input", states it.
pub fn policy_flaw(alloc: Global, text: &[u8], error: PolicyError) -> Result<Flaw, AllocError>
    ensures { IfOk result (λ flaw. IsPolicyFlaw text.now error (flaw_tree flaw)) }
{
    match error {
        PolicyError::Refused { line: _, number } => Ok(entry_flaw(number)),
        PolicyError::Bad { line } => flaw_at(alloc, &[], &[], text, line),
        PolicyError::TooLong | PolicyError::Memory => Ok(line_flaw()),
    }
}

/// What is wrong with a line of a text in which `part` begins with a policy, whose sessions have no number above the bound: the name of the
/// refusal, where an entry of the policy is refused. An `Err` is want of memory. `docs/FORMATS.md`, "What is wrong with an input", states
/// it.
pub fn front_flaw(
    alloc: Global,
    most_session: u64,
    part: &[u8],
    text: &[u8],
    number: u64,
) -> Result<Flaw, AllocError>
    requires { length part.now ≤ most_bytes }
    ensures { IfOk result (λ flaw. IsFrontFlaw most_session part.now text.now number (flaw_tree flaw)) }
{
    match read_front(alloc, part, most_session) {
        Ok(PolicyFront { journal, .. }) => {
            drop(journal);
            flaw_at(alloc, &[], &[], text, number)
        }
        Err(
            PolicyError::Refused {
                number: refusal,
                ..
            },
        ) => Ok(entry_flaw(refusal)),
        Err(PolicyError::Bad { .. }) => flaw_at(alloc, &[], &[], text, number),
        Err(PolicyError::TooLong) => unreachable!(),
        Err(PolicyError::Memory) => Err(AllocError),
    }
}

/// The flaw of an entry that is refused by this number.
fn entry_flaw(number: u64) -> Flaw
    ensures { (r : Refusal) → number ≡ refusal_number r → flaw_tree result ≡ refusal_flaw r }
{
    match refusal_name(number) {
        Some(name) => Flaw { byte: 1, name },
        None => line_flaw(),
    }
}
