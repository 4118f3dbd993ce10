//! Whether what was recorded is right at the end of a journal.
ghost use Rattle.std.specs.Prelude.{◌≡◌, ◌<◌, ◌↔◌, IfOk, IsTrue, filter, length};
ghost use Rattle.proof_lines.specs.Lines.{line_tree, line_trees};
ghost use Rattle.nal_rules.specs.Asking.{case_tree};
ghost use Rattle.nal_rules.specs.Faults.{is_ask};
ghost use Rattle.nal_rules.specs.Verdicts.{ask_place};
ghost use Rattle.policy_history.specs.Values.{state_after};
ghost use Rattle.audit_check.specs.Inner.Judging.{IsRightOpen};
ghost use Rattle.audit_check.specs.Records.{IsRightIn, IsRightOf};

use crate::records::{Answers, Record, Recorded};
use case_verdict::{is_ask_line, open_proof};
use nal_rules::{Case, Cause, Verdict};
use policy_history::{Found, Journal};
use proof_lines::{Line, Proof, Rule};
use std::alloc::{AllocError, Global};

/// Whether a record is right at the end of the journal, whatever its point is. An `Err` is want of memory.
pub fn is_right(alloc: Global, journal: &Journal, recorded: &Record) -> Result<bool, AllocError>
    requires { recorded.now.principal < length journal.now.head.principals }
    ensures { IfOk result (λ right. IsTrue right ↔ IsRightIn journal.now.head (state_after journal.now) recorded.now) }
{
    match journal.case_of(alloc, recorded.principal, &recorded.op, &recorded.object)? {
        Found::NoObject => Ok(is_no_object(recorded.verdict) && recorded.answers.may_be_yes(0)),
        Found::Case { case, .. } => Ok(is_right_of(
            alloc,
            &case,
            &recorded.answers,
            recorded.verdict,
        )),
    }
}

/// Whether what was recorded is right of a case.
fn is_right_of(alloc: Global, case: &Case, answers: &Answers, verdict: Recorded) -> bool
    ensures { IsTrue result ↔ IsRightOf (case_tree case.now) answers.now verdict }
{
    match open_proof(alloc, case) {
        Ok(proof) => is_right_open(proof, answers, verdict),
        Err(cause) => is_denial(verdict, cause) && answers.may_be_yes(0),
    }
}

/// Whether what was recorded is right of an open case with this proof.
fn is_right_open(proof: &Proof, answers: &Answers, verdict: Recorded) -> bool
    ensures { IsTrue result ↔ IsRightOpen (line_trees proof.now) answers.now verdict }
{
    match verdict {
        Recorded::Told(Verdict::Allowed) => answers.may_be_yes(ask_count(proof.as_slice())),
        Recorded::Told(Verdict::Denied(Cause::AuthorityNo { line })) => {
            is_ask_line(proof, line) && answers.may_be_refused(asks_before(proof, line))
        }
        Recorded::Down { line } => {
            is_ask_line(proof, line) && answers.may_be_yes(asks_before(proof, line))
        }
        Recorded::Told(Verdict::Denied(_)) => false,
        Recorded::NoObject => false,
    }
}

/// How many ask lines stand before the line with this number.
pub(crate) fn asks_before(proof: &Proof, number: u64) -> u64
    ensures { result ≡ ask_place (line_trees proof.now) number }
{
    if number == 0 {
        return 0;
    }
    let lines = proof.as_slice();
    let before = (number - 1).min(lines.len() as u64);
    ask_count(&lines[..before as usize])
}

/// How many of the lines are ask lines.
pub(crate) fn ask_count(lines: &[Line]) -> u64
    ensures { result ≡ length (filter is_ask (line_trees lines.now)) }
{
    let mut count = 0u64;
    for line in lines {
        if is_ask(line) {
            count += 1;
        }
    }
    count
}

fn is_ask(line: &Line) -> bool
    ensures { result ≡ is_ask (line_tree line.now) }
{
    matches!(line.rule, Rule::Ask)
}

/// Whether this denial was recorded.
fn is_denial(verdict: Recorded, cause: Cause) -> bool
    ensures { IsTrue result ↔ (verdict ≡ Recorded.Told (Verdict.Denied cause)) }
{
    verdict == Recorded::Told(Verdict::Denied(cause))
}

/// Whether it was recorded that no object has the name.
fn is_no_object(verdict: Recorded) -> bool
    ensures { IsTrue result ↔ (verdict ≡ Recorded.NoObject) }
{
    matches!(verdict, Recorded::NoObject)
}
