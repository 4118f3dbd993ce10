// Proofs given by the texts of their lines, and what is told of each.
use crate::rows::Call;
use nal_parse::parse_formula;
use nal_term::Formula;
use proof_check::{CheckError, Checked, check};
use proof_lines::Proof;
use proof_text::read_proof;
use std::alloc::{AllocError, Global};

// Whether the lines of a proof are accepted, or the line and the fault for which they are refused. Their goal is the last line's
// formula, or another behind `@`.
pub struct Lines;

impl Call for Lines {
    fn told(alloc: Global, input: &str) -> Result<String, AllocError> {
        let (lines, goal) = input.split_once(" @ ").unwrap_or((input, ""));
        let text = format!(in alloc; "proof 1 ; {lines} ; end")?;
        told_of_text(alloc, text.as_str(), goal)
    }
}

fn told_of_text(alloc: Global, text: &str, goal: &str) -> Result<String, AllocError> {
    match read_proof(alloc, text.as_bytes()) {
        Ok(proof) => told_of_proof(alloc, &proof, goal),
        Err(error) => format!(in alloc; "{error:?}"),
    }
}

fn told_of_proof(alloc: Global, proof: &Proof, goal: &str) -> Result<String, AllocError> {
    match proof.as_slice() {
        [.., last] if goal.is_empty() => told_for(alloc, proof, &last.formula),
        _ => told_for_text(alloc, proof, goal),
    }
}

fn told_for_text(alloc: Global, proof: &Proof, goal: &str) -> Result<String, AllocError> {
    match parse_formula(alloc, goal.as_bytes()) {
        Ok(goal) => told_for(alloc, proof, &goal),
        Err(_) => String::from_str(alloc, "no goal"),
    }
}

fn told_for(alloc: Global, proof: &Proof, goal: &Formula) -> Result<String, AllocError> {
    match check(alloc, proof, goal) {
        Ok(checked) => accepted(alloc, &checked),
        Err(CheckError::Line { line, fault }) => format!(in alloc; "{line} {fault:?}"),
        Err(_) => String::from_str(alloc, "no line"),
    }
}

// Where the proof asks, also how many label lines and ask lines it has, and the first of each.
fn accepted(alloc: Global, checked: &Checked) -> Result<String, AllocError> {
    let (labels, asks) = (checked.labels.count(), checked.asks.count());
    if asks == 0 {
        return String::from_str(alloc, "accepted");
    }
    let label = checked.labels.get(0).copied().unwrap_or(0);
    let ask = checked.asks.get(0).copied().unwrap_or(0);
    format!(in alloc; "accepted, with labels {labels} from {label} and asks {asks} from {ask}")
}
