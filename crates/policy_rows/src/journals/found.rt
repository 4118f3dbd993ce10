//! What the guard finds, and what a principal holds, as texts.
ghost use Rattle.std.specs.Prelude.{◌<◌, length};

use crate::tables::{number, text_of};
use nal_parse::{print_formula, print_term};
use nal_rules::Case;
use nal_term::Name;
use nx_io::Bytes;
use policy_history::{Found, Journal};
use std::alloc::{AllocError, Global};

/// The number of the object and of the case, the goal, how many lines the proof has, the labels and the bindings.
pub fn found(
    alloc: Global,
    journal: &Journal,
    principal: u32,
    op: &Name,
    object: &Name,
) -> Result<String, AllocError>
    requires { principal < length journal.now.head.principals }
{
    match journal.case_of(alloc, principal, op, object) {
        Ok(found) => {
            let told = found_told(alloc, &found);
            drop(found);
            told
        }
        Err(AllocError) => Err(AllocError),
    }
}

fn found_told(alloc: Global, found: &Found) -> Result<String, AllocError> {
    match found {
        Found::NoObject => String::from_str(alloc, "no object"),
        Found::Case {
            case,
            number,
            object,
        } => {
            let mut line = format!(in alloc; "object {object}")?;
            if let Some(number) = number {
                push(&mut line, format!(in alloc; " case {number}"))?;
            }
            push_case(alloc, &mut line, case)?;
            Ok(line)
        }
    }
}

fn push_case(alloc: Global, line: &mut String, case: &Case) -> Result<(), AllocError> {
    if let Some(goal) = &case.goal {
        push_bytes(line, " goal ", print_formula(alloc, goal))?;
    }
    if let Some(proof) = &case.proof {
        push(line, format!(in alloc; " proof {}", proof.count()))?;
    }
    for label in case.labels.as_slice() {
        push_bytes(line, " label ", print_formula(alloc, label))?;
    }
    for binding in case.bound.as_slice() {
        push_bytes(line, " bound ", print_term(alloc, &binding.principal))?;
        push(line, format!(in alloc; " {}", binding.port))?;
    }
    Ok(())
}

fn push(line: &mut String, text: Result<String, AllocError>) -> Result<(), AllocError> {
    let text = text?;
    line.push_str(text.as_str())
}

fn push_bytes(
    line: &mut String,
    word: &str,
    bytes: Result<Bytes, AllocError>,
) -> Result<(), AllocError> {
    let bytes = bytes?;
    line.push_str(word)?;
    line.push_str(str::from_utf8(bytes.as_slice()).unwrap_or("no text"))
}

/// A label, by the numbers of its holder and of its place, or `none`.
pub fn label(alloc: Global, journal: &Journal, place: &str) -> Result<String, AllocError> {
    let (holder, k) = place.split_once(" ").unwrap_or(("", ""));
    let holder = u32::try_from(number(holder)).unwrap_or(u32::MAX);
    match journal.label(holder, number(k)) {
        Some(label) => text_of(alloc, print_formula(alloc, label)?.as_slice()),
        None => String::from_str(alloc, "none"),
    }
}
