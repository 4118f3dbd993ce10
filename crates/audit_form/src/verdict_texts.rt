//! The text of what was answered to a call.
ghost use Rattle.std.specs.Prelude.{◌≡◌, ◌≢◌, ◌++◌, [], ℕ, List, MatchOption};
ghost use Rattle.std.specs.Fmt.{decimal};
ghost use Rattle.audit_check.specs.declared.records.Recorded as answer;
ghost use Rattle.audit_form.specs.Inner.Verdicts.{Tells, fault_named, word_text};
ghost use Rattle.audit_form.specs.VerdictTexts.{IsLineNumber, IsVerdictText, fault_name};

use audit_check::Recorded;
use journal_text::split_word;
use nal_rules::{Cause, Fault, Verdict};
use text_lines::{after_word, read_number};

/// The words with which the text of an answer begins.
#[derive(Clone, Copy, Debug, PartialEq, Eq)]
pub enum Word {
    Allowed,
    NoObject,
    Down,
    GoalUnset,
    NoProof,
    Line,
    LabelMissing,
    NotBound,
    AuthorityNo,
}

const FAULTS: [Fault; 12] = [
    Fault::NoSuchRef,
    Fault::NotHyp,
    Fault::WrongShape,
    Fault::Capture,
    Fault::NotFresh,
    Fault::OutOfScope,
    Fault::NotTrue,
    Fault::TooManyAsks,
    Fault::NotAsk,
    Fault::NotClosed,
    Fault::StillOpen,
    Fault::NotGoal,
];

/// How many lines a proof has at most.
const MOST_LINES: u64 = 256;

/// What was answered, by its text. None exactly where the text is of nothing.
pub fn read_verdict(text: &[u8]) -> Option<Recorded>
    ensures { MatchOption result
        ((v : answer.Recorded) → ¬ IsVerdictText text.now v)
        (λ v. IsVerdictText text.now v) }
{
    match word_of(text) {
        Some((word, rest)) => read_told(word, rest),
        None => None,
    }
}

/// The words of a text and what follows them. None exactly where the text begins with none.
fn word_of(text: &[u8]) -> Option<(Word, &[u8])>
    ensures { MatchOption result
        ((word : Word) (rest : List ℕ) → text.entry.now ≢ word_text word ++ rest)
        (λ found. text.entry.now ≡ word_text found.0 ++ found.1.now) }
{
    if let Some(rest) = after_word(text, "allowed") {
        Some((Word::Allowed, rest))
    } else if let Some(rest) = after_word(text, "refused NoSuchObject") {
        Some((Word::NoObject, rest))
    } else if let Some(rest) = after_word(text, "down ") {
        Some((Word::Down, rest))
    } else if let Some(rest) = after_word(text, "denied GoalUnset") {
        Some((Word::GoalUnset, rest))
    } else if let Some(rest) = after_word(text, "denied NoProof") {
        Some((Word::NoProof, rest))
    } else if let Some(rest) = after_word(text, "denied Line ") {
        Some((Word::Line, rest))
    } else if let Some(rest) = after_word(text, "denied LabelMissing ") {
        Some((Word::LabelMissing, rest))
    } else if let Some(rest) = after_word(text, "denied NotBound ") {
        Some((Word::NotBound, rest))
    } else if let Some(rest) = after_word(text, "denied AuthorityNo ") {
        Some((Word::AuthorityNo, rest))
    } else {
        None
    }
}

/// What was answered, by what follows the words.
fn read_told(word: Word, rest: &[u8]) -> Option<Recorded>
    ensures { MatchOption result ((v : answer.Recorded) → ¬ Tells word rest.now v) (λ v. Tells word rest.now v) }
{
    match word {
        Word::Allowed => alone(rest, Recorded::Told(Verdict::Allowed)),
        Word::NoObject => alone(rest, Recorded::NoObject),
        Word::GoalUnset => alone(rest, Recorded::Told(Verdict::Denied(Cause::GoalUnset))),
        Word::NoProof => alone(rest, Recorded::Told(Verdict::Denied(Cause::NoProof))),
        Word::Down => read_down(rest),
        Word::Line => read_fault_line(rest),
        Word::LabelMissing => match read_line(rest) {
            Some(line) => Some(Recorded::Told(Verdict::Denied(Cause::LabelMissing { line }))),
            None => None,
        },
        Word::NotBound => match read_line(rest) {
            Some(line) => Some(Recorded::Told(Verdict::Denied(Cause::NotBound { line }))),
            None => None,
        },
        Word::AuthorityNo => match read_line(rest) {
            Some(line) => Some(Recorded::Told(Verdict::Denied(Cause::AuthorityNo { line }))),
            None => None,
        },
    }
}

/// This answer, where nothing follows.
fn alone(rest: &[u8], verdict: Recorded) -> Option<Recorded>
    ensures { MatchOption result (rest.now ≢ []) (λ v. (rest.now ≡ []) × (v ≡ verdict)) }
{
    if rest.is_empty() { Some(verdict) } else { None }
}

fn read_down(rest: &[u8]) -> Option<Recorded>
    ensures { MatchOption result ((v : answer.Recorded) → ¬ Tells Word.Down rest.now v)
        (λ v. Tells Word.Down rest.now v) }
{
    let Some(line) = read_line(rest) else {
        return None;
    };
    if line <= MOST_LINES {
        Some(Recorded::Down { line })
    } else {
        None
    }
}

fn read_fault_line(rest: &[u8]) -> Option<Recorded>
    ensures { MatchOption result ((v : answer.Recorded) → ¬ Tells Word.Line rest.now v)
        (λ v. Tells Word.Line rest.now v) }
{
    let Some((number, name)) = split_word(rest) else {
        return None;
    };
    let Some(line) = read_line(number) else {
        return None;
    };
    let Some(fault) = read_fault(name) else {
        return None;
    };
    Some(Recorded::Told(Verdict::Denied(Cause::Line { line, fault })))
}

/// The number of a line that the bytes write. None exactly where they write none of 64 bits, or 0.
fn read_line(bytes: &[u8]) -> Option<u64>
    ensures { MatchOption result
        ((k : ℕ) → IsLineNumber k → bytes.now ≢ decimal k)
        (λ k. IsLineNumber k × (bytes.now ≡ decimal k)) }
{
    match read_number(bytes) {
        Some(0) => None,
        number => number,
    }
}

/// The fault with this name.
#[tactic(auto, unfolding(crate::specs::Inner::Verdicts::fault_named))]
fn read_fault(name: &[u8]) -> Option<Fault>
    ensures { result ≡ fault_named name.now }
{
    FAULTS
        .iter()
        .copied()
        .find(|fault| fault_name(*fault).as_bytes() == name)
}

/// The name of a fault. `docs/FORMATS.md`, "Reply lines", states the names.
pub fn fault_name(fault: Fault) -> &'static str
    ensures { result.now ≡ fault_name fault }
{
    match fault {
        Fault::NoSuchRef => "NoSuchRef",
        Fault::NotHyp => "NotHyp",
        Fault::WrongShape => "WrongShape",
        Fault::Capture => "Capture",
        Fault::NotFresh => "NotFresh",
        Fault::OutOfScope => "OutOfScope",
        Fault::NotTrue => "NotTrue",
        Fault::TooManyAsks => "TooManyAsks",
        Fault::NotAsk => "NotAsk",
        Fault::NotClosed => "NotClosed",
        Fault::StillOpen => "StillOpen",
        Fault::NotGoal => "NotGoal",
    }
}
