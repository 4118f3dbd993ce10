//! The proof that is found for an input of `prove`.
ghost use Rattle.std.specs.Prelude.{◌≡◌, ◌≢◌, ◌<◌, ◌^◌, ◌++◌, ◌∷◌, [], IfErr, IfOk, IfSome, OnOk, length, option_map};
ghost use Rattle.proof_lines.specs.Lines.{line_trees};
ghost use Rattle.proof_text.specs.CanonicalProof.{ProofFits, proof_text};
ghost use Rattle.proof_text.specs.ProofText.{IsProofText};
ghost use Rattle.prove_form.specs.Answers.{IsAnswered, IsTold, found_text};
ghost use Rattle.prove_form.specs.Inner.Reading.{IsSaid, IsWrongInput, form_tree};
ghost use Rattle.prove_form.specs.ProveForm as form;
ghost use Rattle.prove_form.specs.ProveForm.{IsProveForm};

use crate::givens::ProveForm;
use crate::read::read_prove;
use chain_prover::{ChainError, find_chain};
use form_lines::goal_for_subject;
use nx_io::Bytes;
use proof_lines::Proof;
use proof_text::print_proof;
use std::alloc::{AllocError, Global};

/// Why an input has no answer.
#[derive(Clone, Copy, Debug, PartialEq, Eq)]
pub enum ProveError {
    /// The lowest line that is wrong, or the number after the last where the input ends too early.
    Wrong { line: u64 },
    /// There was no memory for what it holds, or for the search.
    Memory,
}

/// A shortest proof of a chain for an input of `prove`. None exactly where there is none; `Wrong` exactly where the text has not
/// its form, with the lowest line that is wrong. `docs/LOGIC.md`, "Chains of delegations", states what a chain is.
pub fn prove_of(alloc: Global, text: &[u8]) -> Result<Option<Proof>, ProveError>
    requires { length text.now < 2 ^ 31 }
    ensures ok { IfOk result (λ found. IsTold text.now (option_map line_trees found)) }
    ensures wrong { IfErr result (IsWrongInput text.now) }
    ensures refused { IfErr result
        (λ e. e ≢ ProveError.Memory → (other : form.ProveForm) → ¬ IsProveForm text.now other) }
{
    let read = read_prove(alloc, text)?;
    match answer(alloc, &read) {
        Ok(answer) => Ok(answer),
        Err(_) => Err(ProveError::Memory),
    }
}

/// The proof for what was read.
fn answer(alloc: Global, read: &ProveForm) -> Result<Option<Proof>, AllocError>
    requires { IsSaid (form_tree read.now) }
    ensures { IfOk result (λ found. IsAnswered (form_tree read.now) (option_map line_trees found)) }
{
    let givens = &read.givens;
    let goal = goal_for_subject(alloc, &read.goal, &givens.subject)?;
    match find_chain(alloc, &givens.labels, &goal) {
        Ok(found) => Ok(found),
        Err(ChainError::Memory) => Err(AllocError),
        // What takes the place of `?subject` leaves what is said by somebody said.
        Err(ChainError::NotSays) => unreachable!(),
    }
}

/// The line that is written of what was found, with its line feed: the canonical text of the proof, or `no chain`. An `Err` is
/// want of memory.
pub fn found_line(alloc: Global, found: &Option<Proof>) -> Result<Bytes, AllocError>
    ensures line { IfOk result (λ line. line ≡ found_text (option_map line_trees found.now) ++ 10 ∷ []) }
    ensures read_again { OnOk result
        (IfSome found.now
        (λ proof. ProofFits (line_trees proof) → IsProofText (proof_text (line_trees proof)) (line_trees proof))) }
{
    let mut line = match found {
        Some(proof) => print_proof(alloc, proof)?,
        None => Bytes::of(alloc, b"no chain")?,
    };
    line.extend(b"\n")?;
    Ok(line)
}
