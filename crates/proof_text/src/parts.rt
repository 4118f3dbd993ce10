ghost use Rattle.std.specs.Prelude.{◌≡◌, ◌≤◌, ◌<◌, length, MatchOption, false, List, ℕ};
ghost use Rattle.proof_text.specs.ProofText.{bracket_length, BeginsWithRun, BeginsWithNumber, BeginsWithNumbers};
ghost use Rattle.proof_text.specs.Inner.Reading.{Reads, NoForm, BeginsWithBracket, BeginsWithColon};

use crate::segments::{after_blanks, trim};
use nal_parse::{number_of_digits, run_length};

/// The run of letters, digits and `_` that a text begins with after blanks, and what follows it.
pub fn run(text: &[u8]) -> (&[u8], &[u8])
    ensures { BeginsWithRun text.now result.0.now result.1.now }
{
    let text = after_blanks(text);
    text.split_at(run_length(text))
}

/// The number that a text begins with after blanks, and what follows it.
pub fn number(text: &[u8]) -> Option<(u64, &[u8])>
    ensures { MatchOption result
        (NoForm (BeginsWithNumber text.now))
        (λ r. Reads (BeginsWithNumber text.now) r.0 r.1.now) }
{
    let (digits, rest) = run(text);
    match number_of_digits(digits) {
        Some(number) => Some((number, rest)),
        None => None,
    }
}

#[tactic(auto, using(crate::proofs::Places::bracket_more, crate::proofs::Places::bracket_more_quoted, crate::proofs::Places::bracket_all))]
fn bracket_length(text: &[u8]) -> usize
    ensures length { result ≡ bracket_length false text.now }
    ensures bound { result ≤ length text.now }
{
    let mut quoted = false;
    for (place, byte) in text.iter().enumerate() {
        if *byte == b'"' {
            quoted = !quoted;
        } else if *byte == b']' && !quoted {
            return place;
        }
    }
    text.len()
}

/// The text in the brackets that a text begins with after blanks, without the blanks at its two ends, and
/// what follows the `]`.
pub fn bracket(text: &[u8]) -> Option<(&[u8], &[u8])>
    ensures { MatchOption result
        (NoForm (BeginsWithBracket text.now))
        (λ r. Reads (BeginsWithBracket text.now) r.0.now r.1.now) }
{
    let (first, inner) = after_blanks(text).split_first()?;
    if *first != b'[' {
        return None;
    }
    let length = bracket_length(inner);
    if length == inner.len() {
        return None;
    }
    Some((trim(&inner[..length]), &inner[length + 1..]))
}

/// Reads numbers from the front of a text, one into each place of `numbers`; the answer is what follows them.
pub fn numbers<'a>(text: &'a [u8], numbers: &mut [u64]) -> Option<&'a [u8]>
    ensures { MatchOption result
        (NoForm (BeginsWithNumbers (length numbers.old) text.now))
        (λ rest. Reads (BeginsWithNumbers (length numbers.old) text.now) numbers.new rest.now) }
{
    let mut rest = text;
    for slot in numbers.iter_mut() {
        match number(rest) {
            Some((found, after)) => {
                *slot = found;
                rest = after;
            }
            None => return None,
        }
    }
    Some(rest)
}

/// What follows the `:` that a text begins with after blanks, from its first byte that is no blank.
pub fn after_colon(text: &[u8]) -> Option<&[u8]>
    ensures { MatchOption result
        ((rest : List ℕ) → ¬ BeginsWithColon text.now rest)
        (λ rest. BeginsWithColon text.now rest.now) }
{
    let (first, rest) = after_blanks(text).split_first()?;
    if *first == b':' {
        Some(after_blanks(rest))
    } else {
        None
    }
}
