//! The lines of records.
ghost use Rattle.std.specs.Prelude.{◌≡◌, ◌≢◌, ◌<◌, List, ℕ, IfErr, IfOk, MatchOption, Some, length};
ghost use Rattle.nal_term.specs.Names.{IsName};
ghost use Rattle.policy_history.specs.Events.{numbered};
ghost use Rattle.policy_history.specs.Values.{entry_trees};
ghost use Rattle.audit_check.specs.declared.records.Answers as given;
ghost use Rattle.audit_check.specs.declared.records.Record as call;
ghost use Rattle.audit_check.specs.declared.records.Recorded as answer;
ghost use Rattle.audit_form.specs.CallLines.{IsCallLine};
ghost use Rattle.audit_form.specs.Inner.Reading.{AreWords, IsToldText};
ghost use Rattle.audit_form.specs.RecordLines.{IsRecordLine};

use crate::answer_letters::read_answers;
use crate::verdict_texts::read_verdict;
use audit_check::{Answers, Record, Recorded};
use form_lines::LineError;
use journal_text::split_word;
use nal_term::{Name, NameError};
use policy_history::{Head, Journal};
use std::alloc::Global;
use text_lines::{after_word, read_number};

/// Who asked for what, at which point of a journal: what stands first in the line of a record.
#[derive(Drop)]
pub struct Call {
    /// How many entries the journal had.
    pub at: u64,
    /// The number of the principal that asked.
    pub principal: u32,
    pub op: Name,
    pub object: Name,
}

/// The words of a line: the first four, and what follows them.
#[derive(Clone, Copy)]
pub struct Words<'a> {
    pub at: &'a [u8],
    pub name: &'a [u8],
    pub op: &'a [u8],
    pub object: &'a [u8],
    pub told: &'a [u8],
}

/// Reads the line of a record behind this policy. `Wrong` exactly where the line is that of none: also where its point is
/// past the journal's end, or its principal is none of the head's. `docs/FORMATS.md`, "The input of `audit`", states the form.
pub fn read_record(alloc: Global, journal: &Journal, line: &[u8]) -> Result<Record, LineError>
    ensures ok { IfOk result (λ r. IsRecordLine journal.now.head (entry_trees journal.now.entries) line.now r) }
    ensures only { IfOk result
        (λ r. (other : call.Record) → IsRecordLine journal.now.head (entry_trees journal.now.entries) line.now other
        → other ≡ r) }
    ensures wrong { IfErr result (λ e. e ≢ LineError.Memory → (other : call.Record)
        → ¬ IsRecordLine journal.now.head (entry_trees journal.now.entries) line.now other) }
{
    let (call, told) = match read_call(alloc, journal, line) {
        Ok(read) => read,
        Err(error) => return Err(error),
    };
    let Some((answers, verdict)) = read_told(told) else {
        return Err(LineError::Wrong);
    };
    Ok(Record {
        at: call.at,
        principal: call.principal,
        op: call.op,
        object: call.object,
        answers,
        verdict,
    })
}

/// Reads the call with which a line behind this policy begins, and gives what follows it. `Wrong` exactly where the line begins
/// with none: also where its point is past the journal's end, or its principal is none of the head's.
pub fn read_call<'a>(
    alloc: Global,
    journal: &Journal,
    line: &'a [u8],
) -> Result<(Call, &'a [u8]), LineError>
    ensures ok { IfOk result
        (λ read. IsCallLine journal.now.head (entry_trees journal.now.entries) line.now read.0 read.1.now) }
    ensures only { IfOk result (λ read. (other : Call) (rest : List ℕ)
        → IsCallLine journal.now.head (entry_trees journal.now.entries) line.now other rest
        → (other ≡ read.0) × (rest ≡ read.1.now)) }
    ensures wrong { IfErr result (λ e. e ≢ LineError.Memory → (other : Call) (rest : List ℕ)
        → ¬ IsCallLine journal.now.head (entry_trees journal.now.entries) line.now other rest) }
{
    let count = journal.count();
    let Some(words) = words_of(line) else {
        return Err(LineError::Wrong);
    };
    let Some(at) = read_number(words.at) else {
        return Err(LineError::Wrong);
    };
    if at > count {
        return Err(LineError::Wrong);
    }
    let principal = match principal_named(alloc, journal.head(), words.name) {
        Ok(principal) => principal,
        Err(error) => return Err(error),
    };
    let op = match name(alloc, words.op) {
        Ok(op) => op,
        Err(error) => return Err(error),
    };
    let object = match name(alloc, words.object) {
        Ok(object) => object,
        Err(error) => return Err(error),
    };
    Ok((
        Call {
            at,
            principal,
            op,
            object,
        },
        words.told,
    ))
}

/// The words of a line. None exactly where it has not so many.
fn words_of(line: &[u8]) -> Option<Words>
    ensures { MatchOption result
        ((at name op object told : List ℕ) → ¬ AreWords line.entry.now at name op object told)
        (λ w. AreWords line.entry.now w.at.now w.name.now w.op.now w.object.now w.told.now) }
{
    let Some((at, behind_at)) = split_word(line) else {
        return None;
    };
    let Some((name, behind_name)) = split_word(behind_at) else {
        return None;
    };
    let Some((op, behind_op)) = split_word(behind_name) else {
        return None;
    };
    let Some((object, told)) = split_word(behind_op) else {
        return None;
    };
    Some(Words {
        at,
        name,
        op,
        object,
        told,
    })
}

/// The answers and what was answered.
fn read_told(text: &[u8]) -> Option<(Answers, Recorded)>
    ensures { MatchOption result
        ((a : given.Answers) (v : answer.Recorded) → ¬ IsToldText text.now a v)
        (λ told. IsToldText text.now told.0 told.1) }
{
    let Some((letters, rest)) = split_word(text) else {
        return None;
    };
    let Some(told) = after_word(rest, ": ") else {
        return None;
    };
    let Some(verdict) = read_verdict(told) else {
        return None;
    };
    let Some(answers) = read_answers(letters) else {
        return None;
    };
    Some((answers, verdict))
}

/// The number of the principal with this name. `Wrong` exactly where the bytes are no name, or nobody has it.
fn principal_named(alloc: Global, head: &Head, bytes: &[u8]) -> Result<u32, LineError>
    ensures ok { IfOk result (λ p. numbered head.now.principals bytes.now ≡ Some p) }
    ensures within { IfOk result (λ p. p < length head.now.principals) }
    ensures named { IfOk result (λ p. IsName bytes.now) }
    ensures wrong { IfErr result
        (λ e. e ≢ LineError.Memory → (p : ℕ) → IsName bytes.now → numbered head.now.principals bytes.now ≢ Some p) }
{
    let name = match name(alloc, bytes) {
        Ok(name) => name,
        Err(error) => return Err(error),
    };
    match head.principals.number_of(&name) {
        Some(number) => Ok(number),
        None => Err(LineError::Wrong),
    }
}

/// The name of these bytes. `Wrong` exactly where they are no name.
fn name(alloc: Global, bytes: &[u8]) -> Result<Name, LineError>
    ensures ok { IfOk result (λ name. name ≡ bytes.now) }
    ensures name { IfOk result (λ _. IsName bytes.now) }
    ensures wrong { IfErr result (λ e. e ≢ LineError.Memory → ¬ IsName bytes.now) }
{
    match Name::of(alloc, bytes) {
        Ok(name) => Ok(name),
        Err(NameError::Bad) => Err(LineError::Wrong),
        Err(NameError::Memory) => Err(LineError::Memory),
    }
}
