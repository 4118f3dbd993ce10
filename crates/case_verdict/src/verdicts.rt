// The verdict on a case with answers that are given beforehand.
ghost use Rattle.std.specs.Prelude.{◌≡◌, ◌↔◌, ℕ, IsTrue, MatchOption, Some, true, slice_get};
ghost use Rattle.proof_lines.specs.Lines.{line_trees};
ghost use Rattle.nal_rules.specs.Asking.{case_tree};
ghost use Rattle.nal_rules.specs.Verdicts.{IsAnsweredNo, IsLowest, IsVerdict};
ghost use Rattle.case_verdict.specs.OpenCases.{IsAskLine};

use crate::causes::open_proof;
use nal_rules::{Case, Cause, Verdict};
use proof_lines::{Proof, Rule};
use std::alloc::Global;

/// The verdict on a case where the ask lines of its proof are answered so, in their order. It takes no memory.
pub fn verdict(alloc: Global, case: &Case, answers: &[bool]) -> Verdict
    ensures { IsVerdict (case_tree case.now) answers.now result }
{
    match open_proof(alloc, case) {
        Err(cause) => Verdict::Denied(cause),
        Ok(proof) => match refused_line(proof, answers) {
            Some(line) => Verdict::Denied(Cause::AuthorityNo { line }),
            None => Verdict::Allowed,
        },
    }
}

/// The lowest ask line that is not answered Yes.
fn refused_line(proof: &Proof, answers: &[bool]) -> Option<u64>
    ensures { MatchOption result
        ((k : ℕ) → ¬ IsAnsweredNo (line_trees proof.now) answers.now k)
        (λ k. IsLowest (IsAnsweredNo (line_trees proof.now) answers.now) k) }
{
    let mut asks = 0;
    for index in 0..proof.count() {
        if is_ask_line(proof, index + 1) {
            if !is_yes(answers, asks) {
                return Some(index + 1);
            }
            asks += 1;
        }
    }
    None
}

/// Whether the line with this number, from 1, is an ask line.
pub fn is_ask_line(proof: &Proof, number: u64) -> bool
    ensures { IsTrue result ↔ IsAskLine (line_trees proof.now) number }
{
    match proof.line(number) {
        Some(line) => matches!(line.rule, Rule::Ask),
        None => false,
    }
}

/// Whether the answer at a place, from 0, is Yes.
fn is_yes(answers: &[bool], place: usize) -> bool
    ensures { IsTrue result ↔ (slice_get answers.now place ≡ Some true) }
{
    match answers.get(place) {
        Some(answer) => *answer,
        None => false,
    }
}
