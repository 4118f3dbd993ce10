// As many labels as there may be, and as many lines.
use crate::proving::cases::{Count, add, told_for_text};
use crate::rows::{Call, play};
use nal_term::Formula;
use std::alloc::{AllocError, Global};

// Adds the label that principal number `owner` says that principal number `speaker` speaks for it.
fn add_trust(
    alloc: Global,
    labels: &mut Vec<Formula>,
    owner: u64,
    speaker: u64,
) -> Result<bool, AllocError> {
    let text = format!(in alloc; "p{owner} says p{speaker} speaksfor p{owner}")?;
    Ok(add(alloc, labels, text.as_str()))
}

fn add_says(alloc: Global, labels: &mut Vec<Formula>, number: u64) -> Result<bool, AllocError> {
    let text = format!(in alloc; "p{number} says ok")?;
    Ok(add(alloc, labels, text.as_str()))
}

// A label of the first, and 255 delegations in a line.
fn add_line(alloc: Global, labels: &mut Vec<Formula>) -> Result<bool, AllocError> {
    let mut are_added = add_says(alloc, labels, 0)?;
    for number in 0..255u64 {
        are_added = add_trust(alloc, labels, number.saturating_add(1), number)? && are_added;
    }
    Ok(are_added && labels.len() == 256)
}

struct InALine;

impl Call for InALine {
    fn told(alloc: Global, input: &str) -> Result<String, AllocError> {
        let mut labels = Vec::new(alloc);
        match add_line(alloc, &mut labels) {
            Ok(true) => told_for_text::<Count>(alloc, &labels, input),
            _ => String::from_str(alloc, "not 256 labels"),
        }
    }
}

// One label, and three lines for each of 85 delegations.
const IN_A_LINE: &str = "p85 says ok -> 256 lines
p86 says ok -> none
p255 says ok -> none";

#[test]
fn a_proof_has_at_most_256_lines(rt: HostRuntime) {
    play::<InALine>(&rt, rt.alloc(), IN_A_LINE);
}

// A subprincipal of 127 levels: one label, and two lines for each level.
const FAR_BELOW: &str = "label p0 says ok ; goal p0{127*.x} says ok -> 255 lines
label p0 says ok ; goal p0{128*.x} says ok -> none";

#[test]
fn a_subprincipal_far_below(rt: HostRuntime) {
    play::<Count>(&rt, rt.alloc(), FAR_BELOW);
}

// 16 principals, of which each lets each other speak, and 16 labels beside. Where principal 16 speaks for 3, its label and its
// delegation stand in place of two of those.
fn add_clique(
    alloc: Global,
    labels: &mut Vec<Formula>,
    is_entered: bool,
) -> Result<bool, AllocError> {
    let mut are_added = true;
    for owner in 0..16u64 {
        for speaker in 0..16u64 {
            let is_added = match (owner, speaker) {
                (0, 0) if is_entered => add_trust(alloc, labels, 3, 16)?,
                (1, 1) if is_entered => add_says(alloc, labels, 16)?,
                _ if owner == speaker => add_says(alloc, labels, owner.saturating_add(16))?,
                _ => add_trust(alloc, labels, owner, speaker)?,
            };
            are_added = are_added && is_added;
        }
    }
    Ok(are_added && labels.len() == 256)
}

struct Clique;

impl Call for Clique {
    fn told(alloc: Global, input: &str) -> Result<String, AllocError> {
        let mut labels = Vec::new(alloc);
        match add_clique(alloc, &mut labels, input == "entered") {
            Ok(true) => told_for_text::<Count>(alloc, &labels, "p7 says ok"),
            _ => String::from_str(alloc, "not 256 labels"),
        }
    }
}

// 16 leads to 3, and 3 to 7.
const CLIQUE: &str = "closed -> none
entered -> 7 lines";

#[test]
fn a_clique(rt: HostRuntime) {
    play::<Clique>(&rt, rt.alloc(), CLIQUE);
}
