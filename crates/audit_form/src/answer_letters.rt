//! The letters of answers.
ghost use Rattle.std.specs.Prelude.{◌≡◌, ◌≢◌, ◌≤◌, ◌<◌, [], Bool, List, MatchOption, length, map};
ghost use Rattle.audit_check.specs.declared.records.Answers as given;
ghost use Rattle.audit_form.specs.Inner.Reading.{IsAnswersText};
ghost use Rattle.audit_form.specs.RecordLines.{answer_letter};

use crate::texts::is_text;
use audit_check::{Answers, Given};

/// How many answers there may be.
const MOST_ANSWERS: usize = 16;

/// The answers of a text. None exactly where the text is of none.
pub fn read_answers(text: &[u8]) -> Option<Answers>
    ensures { MatchOption result ((a : given.Answers) → ¬ IsAnswersText text.now a) (λ a. IsAnswersText text.now a) }
{
    if is_text(text, "?") {
        return Some(Answers::Unknown);
    }
    if is_text(text, "-") {
        return Some(Answers::Known(Given::new()));
    }
    if text.is_empty() || text.len() > MOST_ANSWERS {
        return None;
    }
    match read_letters(text) {
        Some(letters) => Some(Answers::Known(letters)),
        None => None,
    }
}

/// The answers of letters.
fn read_letters(text: &[u8]) -> Option<Given>
    requires { length text.now ≤ 16 }
    ensures { MatchOption result
        ((bs : List Bool) → text.now ≢ map answer_letter bs)
        (λ bs. text.now ≡ map answer_letter bs) }
{
    let mut letters = Given::new();
    for byte in text {
        let Some(answer) = answer_of(*byte) else {
            return None;
        };
        if letters.push(answer).is_err() {
            return None;
        }
    }
    Some(letters)
}

/// The answer of a letter.
fn answer_of(letter: u8) -> Option<bool>
    ensures { MatchOption result ((b : Bool) → letter ≢ answer_letter b) (λ b. letter ≡ answer_letter b) }
{
    match letter {
        b'y' => Some(true),
        b'n' => Some(false),
        _ => None,
    }
}
