//! Policies and events by their texts.
use crate::tables::{number, text_of};
use journal_text::{PolicyError, event_of, policy_line, print_policy, read_policy, read_request};
use nal_term::Name;
use policy_history::{Event, Journal};
use std::alloc::{AllocError, Global};

const HEAD: &str =
    "nexus 2\nprincipal alice pa\nprincipal bob pb\nauthority 0 clock\nauthority 15 127.0.0.1:80\n";

/// The text of a journal.
pub fn written(alloc: Global, journal: &Journal) -> Result<String, AllocError> {
    match print_policy(alloc, journal) {
        Ok(text) => text_of(alloc, text.as_slice()),
        Err(AllocError) => Err(AllocError),
    }
}

/// What is told of a text that is no policy.
pub fn error_told(alloc: Global, error: PolicyError) -> Result<String, AllocError> {
    match error {
        PolicyError::Memory => Err(AllocError),
        error => format!(in alloc; "{error:?}"),
    }
}

/// The text as it is written after it was read.
pub fn read(alloc: Global, text: &[u8]) -> Result<String, AllocError> {
    match read_policy(alloc, text) {
        Ok(journal) => {
            let text = written(alloc, &journal);
            drop(journal);
            text
        }
        Err(error) => error_told(alloc, error),
    }
}

/// As `read`, of these lines behind a head.
pub fn read_entries(alloc: Global, lines: &str) -> Result<String, AllocError> {
    let text = format!(in alloc; "{HEAD}{lines}")?;
    let told = read(alloc, text.as_bytes())?;
    match told.as_str().strip_prefix(HEAD) {
        Some(rest) => String::from_str(alloc, rest),
        None => Ok(told),
    }
}

// Adds so many lines, each with its number from 0 between these texts.
fn push_lines(
    alloc: Global,
    text: &mut String,
    count: &str,
    before: &str,
    after: &str,
) -> Result<(), AllocError> {
    for number in 0..number(count) {
        text.push_str(format!(in alloc; "{before}{number}{after}\n")?.as_str())?;
    }
    Ok(())
}

/// A text with so many principals, p0 and on, and so many authorities.
pub fn text_with(alloc: Global, principals: &str, authorities: &str) -> Result<String, AllocError> {
    let mut lines = String::new(alloc);
    push_lines(alloc, &mut lines, principals, "principal p", " s")?;
    push_lines(alloc, &mut lines, authorities, "authority ", " a")?;
    format!(in alloc; "nexus 2\n{lines}end\n")
}

/// As `read`, of a head with so many principals and authorities; `the same` where it is written as it was.
pub fn read_head(alloc: Global, counts: &str) -> Result<String, AllocError> {
    let (principals, authorities) = counts.split_once(" ").unwrap_or(("", ""));
    let text = text_with(alloc, principals, authorities)?;
    let told = read(alloc, text.as_bytes())?;
    if told == text {
        String::from_str(alloc, "the same")
    } else {
        Ok(told)
    }
}

/// The change that a request's line asks for.
pub fn event(alloc: Global, line: &str) -> Result<Event, AllocError> {
    match read_request(alloc, line.as_bytes()) {
        Ok(request) => {
            let event = event_of(alloc, &request);
            drop(request);
            event?.ok_or(AllocError)
        }
        Err(_) => Err(AllocError),
    }
}

/// The name of this text.
pub fn name(alloc: Global, text: &str) -> Result<Name, AllocError> {
    match Name::of(alloc, text.as_bytes()) {
        Ok(name) => Ok(name),
        Err(_) => Err(AllocError),
    }
}

/// The line of a policy for a session, a principal's name and a request's line.
pub fn line_of(alloc: Global, text: &str) -> Result<String, AllocError> {
    let (session, rest) = text.split_once(" ").unwrap_or(("", ""));
    let (who, request) = rest.split_once(" ").unwrap_or(("", ""));
    let name = name(alloc, who)?;
    line_with(alloc, number(session), &name, event(alloc, request)?)
}

fn line_with(alloc: Global, session: u64, name: &Name, event: Event) -> Result<String, AllocError> {
    let line = policy_line(alloc, session, name, &event);
    drop(event);
    text_of(alloc, line?.as_slice())
}
