// Labels and goals by their texts, with what is found of them.
use crate::rows::{Call, text_of};
use chain_prover::{ChainError, find_chain};
use nal_parse::parse_formula;
use nal_term::Formula;
use proof_check::check;
use proof_lines::Proof;
use proof_text::print_proof;
use std::alloc::{AllocError, Global};

// What is told of a proof that is found and checked.
pub trait Told {
    fn told_of(alloc: Global, proof: &Proof) -> Result<String, AllocError>;
}

// The proof of a chain.
pub struct Chain;

impl Told for Chain {
    fn told_of(alloc: Global, proof: &Proof) -> Result<String, AllocError> {
        let printed = print_proof(alloc, proof)?;
        String::from_str(alloc, text_of(printed.as_slice()))
    }
}

impl Call for Chain {
    fn told(alloc: Global, input: &str) -> Result<String, AllocError> {
        told_of_input::<Chain>(alloc, input)
    }
}

// How many lines it has.
pub struct Count;

impl Told for Count {
    fn told_of(alloc: Global, proof: &Proof) -> Result<String, AllocError> {
        format!(in alloc; "{} lines", proof.count())
    }
}

impl Call for Count {
    fn told(alloc: Global, input: &str) -> Result<String, AllocError> {
        told_of_input::<Count>(alloc, input)
    }
}

fn told_of_input<T: Told>(alloc: Global, input: &str) -> Result<String, AllocError> {
    let mut labels = Vec::new(alloc);
    if add_all(alloc, &mut labels, input) {
        let goal = input.split_once("goal ").unwrap_or(("", "")).1;
        told_for_text::<T>(alloc, &labels, goal)
    } else {
        String::from_str(alloc, "no label")
    }
}

fn add_all(alloc: Global, labels: &mut Vec<Formula>, input: &str) -> bool {
    for part in input.split(" ; ") {
        let (word, text) = part.split_once(" ").unwrap_or((part, ""));
        if word == "label" && !add(alloc, labels, text) {
            return false;
        }
    }
    true
}

pub fn add(alloc: Global, labels: &mut Vec<Formula>, text: &str) -> bool {
    match parse_formula(alloc, text.as_bytes()) {
        Ok(label) => labels.push(label).is_ok(),
        Err(_) => false,
    }
}

pub fn told_for_text<T: Told>(
    alloc: Global,
    labels: &Vec<Formula>,
    goal: &str,
) -> Result<String, AllocError> {
    match parse_formula(alloc, goal.as_bytes()) {
        Ok(goal) => told_for::<T>(alloc, labels, &goal),
        Err(_) => String::from_str(alloc, "no goal"),
    }
}

fn told_for<T: Told>(
    alloc: Global,
    labels: &Vec<Formula>,
    goal: &Formula,
) -> Result<String, AllocError> {
    match find_chain(alloc, labels, goal) {
        Ok(Some(proof)) => told_of_checked::<T>(alloc, &proof, goal),
        Ok(None) => String::from_str(alloc, "none"),
        Err(ChainError::NotSays) => String::from_str(alloc, "nobody says it"),
        Err(ChainError::Memory) => Err(AllocError),
    }
}

fn told_of_checked<T: Told>(
    alloc: Global,
    proof: &Proof,
    goal: &Formula,
) -> Result<String, AllocError> {
    if check(alloc, proof, goal).is_ok() {
        T::told_of(alloc, proof)
    } else {
        String::from_str(alloc, "refused")
    }
}
