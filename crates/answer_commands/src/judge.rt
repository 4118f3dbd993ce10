ghost use Rattle.std.specs.Prelude.{◌↔◌, IfOk, IsTrue, MatchOption, ℕ};
ghost use Rattle.proof_lines.specs.Lines.{line_trees};
ghost use Rattle.nal_rules.specs.Verdicts.{IsLowest, IsMissingLabel};
ghost use Rattle.answer_commands.specs.Inner.Forms.{form_of, formula_trees};
ghost use Rattle.answer_commands.specs.CheckVerdicts.{IsJustifiedIfAllowed, IsVerdictOn};
ghost use Rattle.answer_commands.specs.Inner.Support.{IsSupportVerdict, IsUnanswered};

use crate::check_form::Input;
use crate::keys::FormulaKey;
use form_lines::goal_for_subject;
use nal_rules::{Cause, Verdict};
use proof_check::{CheckError, check};
use proof_lines::{Proof, Rule};
use std::alloc::{AllocError, Global};

/// Whether the line with this number is a label line whose formula is not among the labels.
fn is_missing_label(
    alloc: Global,
    proof: &Proof,
    labels: &[FormulaKey],
    number: u64,
) -> Result<bool, AllocError>
    ensures { IfOk result
        (λ missing. IsTrue missing ↔ IsMissingLabel (line_trees proof.now) (formula_trees labels.now) number) }
{
    let Some(line) = proof.line(number) else {
        return Ok(false);
    };
    match line.rule {
        Rule::Label => {
            let key = FormulaKey::of(alloc, &line.formula)?;
            Ok(!key.is_among(labels))
        }
        _ => Ok(false),
    }
}

/// The lowest label line whose formula is not among the labels.
fn missing_label(
    alloc: Global,
    proof: &Proof,
    labels: &[FormulaKey],
) -> Result<Option<u64>, AllocError>
    ensures { IfOk result (λ found. MatchOption found
        ((k : ℕ) → ¬ IsMissingLabel (line_trees proof.now) (formula_trees labels.now) k)
        (λ k. IsLowest (IsMissingLabel (line_trees proof.now) (formula_trees labels.now)) k)) }
{
    for number in 1..proof.count() + 1 {
        if is_missing_label(alloc, proof, labels, number)? {
            return Ok(Some(number));
        }
    }
    Ok(None)
}

/// Whether the line with this number is an ask line whose formula is not one of the yes formulas.
fn is_unanswered(
    alloc: Global,
    proof: &Proof,
    yes: &[FormulaKey],
    number: u64,
) -> Result<bool, AllocError>
    ensures { IfOk result
        (λ unanswered. IsTrue unanswered ↔ IsUnanswered (line_trees proof.now) (formula_trees yes.now) number) }
{
    let Some(line) = proof.line(number) else {
        return Ok(false);
    };
    match line.rule {
        Rule::Ask => {
            let key = FormulaKey::of(alloc, &line.formula)?;
            Ok(!key.is_among(yes))
        }
        _ => Ok(false),
    }
}

/// The lowest ask line whose formula is not one of the yes formulas.
fn unanswered(alloc: Global, proof: &Proof, yes: &[FormulaKey]) -> Result<Option<u64>, AllocError>
    ensures { IfOk result (λ found. MatchOption found
        ((k : ℕ) → ¬ IsUnanswered (line_trees proof.now) (formula_trees yes.now) k)
        (λ k. IsLowest (IsUnanswered (line_trees proof.now) (formula_trees yes.now)) k)) }
{
    for number in 1..proof.count() + 1 {
        if is_unanswered(alloc, proof, yes, number)? {
            return Ok(Some(number));
        }
    }
    Ok(None)
}

/// The verdict on what the input holds: the goal is the input's with the subject's name in place of
/// `?subject`. `docs/LOGIC.md`, "Verdicts", says which cause is told where several apply.
pub fn judge(alloc: Global, input: &Input) -> Result<Verdict, AllocError>
    ensures verdict { IfOk result (λ verdict. IsVerdictOn (form_of input.now) verdict) }
    ensures justified { IfOk result (λ verdict. IsJustifiedIfAllowed (form_of input.now) verdict) }
{
    let goal = goal_for_subject(alloc, &input.goal, &input.subject)?;
    match check(alloc, &input.proof, &goal) {
        Ok(_) => support_verdict(alloc, input),
        Err(CheckError::Empty) => Ok(Verdict::Denied(Cause::NoProof)),
        Err(CheckError::Line { line, fault }) => Ok(Verdict::Denied(Cause::Line { line, fault })),
        Err(CheckError::Memory) => Err(AllocError),
    }
}

/// What a proof without a fault comes to by the labels and the yes formulas.
fn support_verdict(alloc: Global, input: &Input) -> Result<Verdict, AllocError>
    ensures { IfOk result (IsSupportVerdict (form_of input.now)) }
{
    let missing = missing_label(alloc, &input.proof, &input.labels)?;
    if let Some(line) = missing {
        return Ok(Verdict::Denied(Cause::LabelMissing { line }));
    }
    let unanswered = unanswered(alloc, &input.proof, &input.yes)?;
    if let Some(line) = unanswered {
        return Ok(Verdict::Denied(Cause::AuthorityNo { line }));
    }
    Ok(Verdict::Allowed)
}
