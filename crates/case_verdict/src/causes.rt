// What denies a case whatever authorities answer.
ghost use Rattle.std.specs.Prelude.{IfErr, IfOk};
ghost use Rattle.proof_lines.specs.Lines.{line_trees};
ghost use Rattle.nal_rules.specs.Asking.{case_tree};
ghost use Rattle.case_verdict.specs.OpenCases.{IsDeniedBy, IsOpen};

use nal_rules::{Case, Cause};
use proof_check::{CheckError, check, missing_label, unbound_line};
use proof_lines::Proof;
use std::alloc::Global;

/// The proof of a case that is open: only the answers to its ask lines decide. An `Err` is the cause by which the case is
/// denied whatever they are. It takes no memory. `docs/LOGIC.md`, "Verdicts", says which cause is told where several apply.
pub fn open_proof(alloc: Global, case: &Case) -> Result<&Proof, Cause>
    ensures open { IfOk result (λ proof. IsOpen (case_tree case.now) (line_trees proof.now)) }
    ensures denied { IfErr result (IsDeniedBy (case_tree case.now)) }
{
    let Some(goal) = &case.goal else {
        return Err(Cause::GoalUnset);
    };
    let Some(proof) = &case.proof else {
        return Err(Cause::NoProof);
    };
    match check(alloc, proof, goal) {
        Ok(_) => {}
        Err(CheckError::Empty) => return Err(Cause::NoProof),
        Err(CheckError::Line { line, fault }) => return Err(Cause::Line { line, fault }),
        Err(CheckError::Memory) => unreachable!(),
    }
    if let Some(line) = missing_label(proof, case.labels.as_slice()) {
        return Err(Cause::LabelMissing { line });
    }
    if let Some(line) = unbound_line(proof, case.bound.as_slice()) {
        return Err(Cause::NotBound { line });
    }
    Ok(proof)
}
