//! Steps on a journal. Below the title of a part stands the text of the policy whose head the journal has, and each other line is
//! a row. A row is a request of a principal in a session: it comes to what a hello finds, to what a call is judged by, or to the
//! number or the refusal of a change, which is added where it is accepted. The journal is owned by one function alone, since
//! each way out of a function that owns one is proved.
ghost use Rattle.std.specs.Prelude.{◌<◌, length, IfOk};

mod cases;
mod found;
mod limits;
mod printing;
mod refusals;

use crate::policies::{event, name as name_of, text_with, written};
use crate::tables::number;
use found::{found, label};
use journal_text::{event_of, read_policy, read_request};
use policy_history::{Due, Event, Journal, Refusal};
use session_wire::Request;
use std::alloc::{AllocError, Global};

// A journal without entries, with the head of this policy.
fn journal(alloc: Global, policy: &str) -> Result<Journal, AllocError> {
    match read_policy(alloc, policy.as_bytes()) {
        Ok(read) => {
            let head = read.head().copy(alloc);
            drop(read);
            Journal::new(alloc, head?)
        }
        Err(_) => Err(AllocError),
    }
}

// The number of the principal with this name.
fn principal(alloc: Global, journal: &Journal, name: &str) -> Result<u32, AllocError>
    ensures { IfOk result (λ p. p < length journal.now.head.principals) }
{
    let name = name_of(alloc, name)?;
    match journal.head().principals.number_of(&name) {
        Some(number) => Ok(number),
        None => Err(AllocError),
    }
}

// The number of what was due, where that is told.
fn due_told(alloc: Global, due: Due, told: Due) -> Result<String, AllocError> {
    if told == due {
        format!(in alloc; "{}", due.number)
    } else {
        format!(in alloc; "{due:?} {told:?}")
    }
}

// What a change comes to; one that is accepted is added.
fn offered(
    alloc: Global,
    journal: &mut Journal,
    session: u64,
    principal: u32,
    event: Event,
) -> Result<String, AllocError>
    requires { principal < length journal.old.head.principals }
{
    match journal.decide(session, principal, &event) {
        Err(refusal) => {
            drop(event);
            format!(in alloc; "{refusal:?}")
        }
        Ok(due) => match journal.reserve(&event) {
            Ok(spare) => {
                let told = journal.append(session, principal, event, spare);
                due_told(alloc, due, told)
            }
            Err(AllocError) => {
                drop(event);
                Err(AllocError)
            }
        },
    }
}

fn answered(
    alloc: Global,
    journal: &mut Journal,
    session: u64,
    principal: u32,
    request: &Request,
) -> Result<String, AllocError>
    requires { principal < length journal.old.head.principals }
{
    match request {
        Request::Hello { name, secret } => {
            format!(in alloc; "{:?}", journal.principal_of(name, secret))
        }
        Request::Call { op, object, .. } => found(alloc, journal, principal, op, object),
        _ => {
            let event = event_of(alloc, request)?.ok_or(AllocError)?;
            offered(alloc, journal, session, principal, event)
        }
    }
}

// A session, a principal's name and a request's line.
fn words(line: &str) -> (u64, &str, &str) {
    let (session, rest) = line.split_once(" ").unwrap_or(("", ""));
    let (who, request) = rest.split_once(" ").unwrap_or(("", ""));
    (number(session), who, request)
}

fn tried(alloc: Global, journal: &mut Journal, line: &str) -> Result<String, AllocError> {
    let (session, who, request) = words(line);
    let principal = principal(alloc, journal, who)?;
    match read_request(alloc, request.as_bytes()) {
        Ok(request) => {
            let told = answered(alloc, journal, session, principal, &request);
            drop(request);
            told
        }
        Err(_) => Err(AllocError),
    }
}

// The bytes of the line of a change, or the region that it touches.
fn measured(
    alloc: Global,
    journal: &Journal,
    what: &str,
    line: &str,
) -> Result<String, AllocError> {
    let (session, who, request) = words(line);
    let principal = principal(alloc, journal, who)?;
    let event = event(alloc, request)?;
    let told = if what == "touch" {
        format!(in alloc; "{:?}", journal.region_of(principal, &event))
    } else {
        bytes_told(alloc, journal.decide(session, principal, &event))
    };
    drop(event);
    told
}

fn bytes_told(alloc: Global, decided: Result<Due, Refusal>) -> Result<String, AllocError> {
    match decided {
        Ok(due) => format!(in alloc; "{}", due.bytes),
        Err(refusal) => format!(in alloc; "{refusal:?}"),
    }
}

// What a line comes to with these in place of `#` and `@`.
fn tried_at(
    alloc: Global,
    journal: &mut Journal,
    line: &str,
    place: &str,
    group: &str,
) -> Result<String, AllocError> {
    let line = line.replace(alloc, '#', place)?;
    let line = line.as_str().replace(alloc, '@', group)?;
    tried(alloc, journal, line.as_str())
}

// Two numbers, the size of a group, and the change of which each number from the first up to the second is tried in place of `#`, with
// the number of its group, from 10, in place of `@`: `each` where each comes to its number, or else what the first other one comes to.
fn series(alloc: Global, journal: &mut Journal, text: &str) -> Result<String, AllocError> {
    let (first, rest) = text.split_once(" ").unwrap_or(("", ""));
    let (end, rest) = rest.split_once(" ").unwrap_or(("", ""));
    let (size, line) = rest.split_once(" ").unwrap_or(("", ""));
    let first = number(first);
    let size = number(size).max(1);
    for index in first..number(end) {
        let group = index.saturating_sub(first) / size;
        let group = format!(in alloc; "{}", group.saturating_add(10))?;
        let place = format!(in alloc; "{index}")?;
        let told = tried_at(alloc, journal, line, place.as_str(), group.as_str())?;
        if told != place {
            return format!(in alloc; "{place} {told}");
        }
    }
    String::from_str(alloc, "each")
}

fn step(alloc: Global, journal: &mut Journal, line: &str) -> Result<String, AllocError> {
    let (word, rest) = line.split_once(" ").unwrap_or((line, ""));
    match word {
        "all" => series(alloc, journal, rest),
        "bytes" | "touch" => measured(alloc, journal, word, rest),
        "label" => label(alloc, journal, rest),
        "count" => format!(in alloc; "{}", journal.count()),
        "text" => written(alloc, journal),
        _ => tried(alloc, journal, line),
    }
}

// A text as a row shows it.
fn shown(alloc: Global, text: String) -> Result<String, AllocError> {
    text.as_str().replace(alloc, '\n', "|")
}

// The first row that comes to something else, with what it comes to. Nothing where there is none.
fn first_other_on(alloc: Global, journal: &mut Journal, rows: &str) -> Result<String, AllocError> {
    for row in rows.lines() {
        let (line, wanted) = row.split_once(" -> ").unwrap_or((row, ""));
        let told = shown(alloc, step(alloc, journal, line)?)?;
        if told.as_str() != wanted {
            return format!(in alloc; "{line} -> {told}");
        }
    }
    Ok(String::new(alloc))
}

// The policy that a line stands for: its text, or the number of its principals.
fn policy_of(alloc: Global, line: &str) -> Result<String, AllocError> {
    match line.strip_prefix("principals ") {
        Some(count) => text_with(alloc, count, "0"),
        None => line.replace(alloc, '|', "\n"),
    }
}

/// As `first_other_on`, on a new journal; its head stands above the rows.
pub fn first_other(alloc: Global, part: &str) -> Result<String, AllocError> {
    let (head, rows) = part.split_once("\n").unwrap_or((part, ""));
    let policy = policy_of(alloc, head)?;
    match journal(alloc, policy.as_str()) {
        Ok(mut journal) => {
            let other = first_other_on(alloc, &mut journal, rows);
            drop(journal);
            other
        }
        Err(AllocError) => Err(AllocError),
    }
}
