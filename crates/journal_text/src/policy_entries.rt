//! Reading the entries of a policy's text.
ghost use Rattle.std.specs.Prelude.{◌≡◌, ◌≢◌, ◌<◌, ◌≤◌, ◌^◌, ◌++◌, ◌∷◌, [], ℕ, IfOk, IfSome, Option, Some, None, Ok, length};
ghost use Rattle.std.specs.Fmt.{decimal};
ghost use Rattle.policy_history.specs.Events.{EntryTree, EventTree, entry_tree, event_tree};
ghost use Rattle.policy_history.specs.Machine.{refusal_of};
ghost use Rattle.policy_history.specs.Values.{entry_trees, state_after};
ghost use Rattle.journal_text.specs.PolicyText.{IsEntryLine, IsEventText};
ghost use Rattle.journal_text.specs.Inner.PolicyReading.{IsLineAdded, IsLineRefused};

use crate::events::event_of;
use crate::policy_words::split_word;
use crate::request_lines::{LineError, read_request_text};
use policy_history::{Entry, Event, Head, Journal, Refusal};
use std::alloc::{AllocError, Global};
use text_lines::read_number;

/// Why the entry of a line was not added.
#[derive(Clone, Copy, Debug, PartialEq, Eq)]
pub enum LineFault {
    /// The line is that of no entry.
    Bad,
    /// Its event is refused.
    Refused(Refusal),
    /// There was no memory for it.
    Memory,
}

/// Adds the entry of a line to the journal. `Bad` exactly where the line is that of none, `Refused` where the journal
/// refuses its event; an `Err` leaves head and entries.
pub fn add_entry(alloc: Global, journal: &mut Journal, line: &[u8]) -> Result<(), LineFault>
    ensures head { journal.new.head ≡ journal.old.head }
    ensures ok { result ≡ Ok tt → IsLineAdded journal.old journal.new line.now }
    ensures bad { result ≡ Err LineFault.Bad → (e : EntryTree) → ¬ IsEntryLine journal.old.head line.now e }
    ensures refused { (r : Refusal) → result ≡ Err (LineFault.Refused r) → IsLineRefused journal.old line.now r }
{
    let entry = match read_entry(alloc, journal.head(), line) {
        Ok(entry) => entry,
        Err(LineError::Bad) => return Err(LineFault::Bad),
        Err(LineError::Memory) => return Err(LineFault::Memory),
    };
    match append_entry(journal, entry) {
        Ok(None) => Ok(()),
        Ok(Some(refusal)) => Err(LineFault::Refused(refusal)),
        Err(AllocError) => Err(LineFault::Memory),
    }
}

/// Adds an entry to the journal, and answers None; or answers why its event is refused. Where it is refused, and where
/// there was no memory, the entries stay.
fn append_entry(journal: &mut Journal, entry: Entry) -> Result<Option<Refusal>, AllocError>
    requires { entry.principal < length journal.old.head.principals }
    ensures head { journal.new.head ≡ journal.old.head }
    ensures refusal { IfOk result
        (λ refusal. refusal
        ≡ refusal_of journal.old.head (state_after journal.old) entry.session entry.principal
        (event_tree entry.event)) }
    ensures added { result ≡ Ok None
        → entry_trees journal.new.entries ≡ entry_trees journal.old.entries ++ entry_tree entry ∷ [] }
{
    let Entry {
        session,
        principal,
        event,
    } = entry;
    if let Err(refusal) = journal.decide(session, principal, &event) {
        drop(event);
        return Ok(Some(refusal));
    }
    let Ok(spare) = journal.reserve(&event) else {
        drop(event);
        return Err(AllocError);
    };
    journal.append(session, principal, event, spare);
    Ok(None)
}

/// Reads the line of an entry. `Bad` exactly where it is that of none.
fn read_entry(alloc: Global, head: &Head, line: &[u8]) -> Result<Entry, LineError>
    ensures ok { IfOk result (λ e. IsEntryLine head.now line.now (entry_tree e)) }
    ensures within { IfOk result (λ e. e.principal < length head.now.principals) }
    ensures bad { result ≡ Err LineError.Bad → (e : EntryTree) → ¬ IsEntryLine head.now line.now e }
{
    let Some((session, rest)) = split_word(line) else {
        return Err(LineError::Bad);
    };
    let Some((name, text)) = split_word(rest) else {
        return Err(LineError::Bad);
    };
    let Some(session) = read_session(session) else {
        return Err(LineError::Bad);
    };
    let principal = match head.principals.number_of_text(alloc, name) {
        Ok(Some(principal)) => principal,
        Ok(None) => return Err(LineError::Bad),
        Err(AllocError) => return Err(LineError::Memory),
    };
    match read_event(alloc, text) {
        Ok(event) => Ok(Entry {
            session,
            principal,
            event,
        }),
        Err(error) => Err(error),
    }
}

/// The session number that the word writes. None exactly where it writes none of 64 bits, or 0.
fn read_session(word: &[u8]) -> Option<u64>
    ensures value { IfSome result (λ n. (word.now ≡ decimal n) × (1 ≤ n)) }
    ensures none { result ≡ None → (n : ℕ) → 1 ≤ n → n < 2 ^ 64 → word.now ≢ decimal n }
{
    match read_number(word) {
        Some(0) => None,
        session => session,
    }
}

/// Reads the text of an event. `Bad` exactly where it is that of none.
fn read_event(alloc: Global, text: &[u8]) -> Result<Event, LineError>
    ensures ok { IfOk result (λ event. IsEventText text.now (event_tree event)) }
    ensures bad { result ≡ Err LineError.Bad → (e : EventTree) → ¬ IsEventText text.now e }
{
    let request = match read_request_text(alloc, text) {
        Ok(request) => request,
        Err(error) => return Err(error),
    };
    let event = event_of(alloc, &request);
    drop(request);
    match event {
        Ok(Some(event)) => Ok(event),
        Ok(None) => Err(LineError::Bad),
        Err(AllocError) => Err(LineError::Memory),
    }
}
