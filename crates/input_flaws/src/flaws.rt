//! What is wrong with the line of an input that is refused.
ghost use Rattle.std.specs.Prelude.{◌≡◌, ◌<◌, ◌≤◌, ◌+◌, ◌^◌, ℕ, List, [], IfOk, IfSome, MatchOption, codes, length, map};
ghost use Rattle.run_streams.specs.Flaws.{flaw_named, flaw_tree};
ghost use Rattle.input_flaws.specs.LineFlaws.{IsFlawAt, IsLineFlaw, IsLineOf, error_name, error_place, formula_flaw, line_flaw};
ghost use Rattle.input_flaws.specs.Inner.Flaws.{IsFormulaBehind, IsFormulaErrorBehind, IsTermBehind, IsTermErrorBehind};

use nal_parse::{ParseError, parse_formula, parse_term};
use run_streams::Flaw;
use std::alloc::{AllocError, Global};
use text_lines::{after_word, first_line};

/// The flaw of a line that may not stand where it stands.
pub fn line_flaw() -> Flaw
    ensures { flaw_tree result ≡ line_flaw }
{
    Flaw {
        byte: 1,
        name: "BadLine",
    }
}

/// The flaw of an input that ends where a line has to stand.
fn end_flaw() -> Flaw
    ensures { flaw_tree result ≡ flaw_named 1 (codes "EndOfInput") }
{
    Flaw {
        byte: 1,
        name: "EndOfInput",
    }
}

/// The flaw of the text of a formula or a term with this error, before which so many bytes of the line stand.
pub fn formula_flaw(before: u64, error: ParseError) -> Flaw
    requires { before + error_place error + 1 < 2 ^ 64 }
    ensures { flaw_tree result ≡ formula_flaw before error }
{
    Flaw {
        byte: before + place_of(error) + 1,
        name: name_of(error),
    }
}

/// The flaw of a line of a text, counted from 1, in which a formula stands behind each of the first words, and a term behind each of the
/// second. An `Err` is want of memory. `docs/FORMATS.md`, "What is wrong with an input", states it.
pub fn flaw_at(
    alloc: Global,
    formulas: &[&str],
    terms: &[&str],
    text: &[u8],
    number: u64,
) -> Result<Flaw, AllocError>
    ensures { IfOk result
        (λ flaw. IsFlawAt (map (λ w. w.now) formulas.now) (map (λ w. w.now) terms.now) text.now number
        (flaw_tree flaw)) }
{
    match line_of(text, number) {
        Some(line) => flaw_of(alloc, formulas, terms, line),
        None => Ok(end_flaw()),
    }
}

/// A line of a text, counted from 1. None where it has fewer lines.
fn line_of(text: &[u8], number: u64) -> Option<&[u8]>
    ensures { MatchOption result
        ((line : List ℕ) → ¬ IsLineOf text.entry.now number line)
        (λ line. IsLineOf text.entry.now number line.now) }
{
    let mut rest = text;
    let mut left = number;
    while left > 0 && !rest.is_empty() {
        let (line, after) = first_line(rest);
        if left == 1 {
            return Some(line);
        }
        left -= 1;
        rest = after;
    }
    None
}

/// The flaw of a line in which a formula stands behind each of the first words, and a term behind each of the second.
fn flaw_of(
    alloc: Global,
    formulas: &[&str],
    terms: &[&str],
    line: &[u8],
) -> Result<Flaw, AllocError>
    ensures { IfOk result
        (λ flaw. IsLineFlaw (map (λ w. w.now) formulas.now) (map (λ w. w.now) terms.now) line.now (flaw_tree flaw)) }
{
    for word in formulas {
        if let Some(error) = error_behind(alloc, word, line)? {
            return Ok(formula_flaw(word.len() as u64, error));
        }
    }
    term_flaw_of(alloc, terms, line)
}

/// The flaw of a line in which a term stands behind each of these words.
fn term_flaw_of(alloc: Global, terms: &[&str], line: &[u8]) -> Result<Flaw, AllocError>
    ensures { IfOk result (λ flaw. IsLineFlaw [] (map (λ w. w.now) terms.now) line.now (flaw_tree flaw)) }
{
    for word in terms {
        if let Some(error) = term_error_behind(alloc, word, line)? {
            let before = word.len() as u64;
            return Ok(formula_flaw(before, error));
        }
    }
    Ok(line_flaw())
}

/// The error of the formula that stands in a line behind a word. None where the line does not begin with the word, or a formula stands
/// there.
fn error_behind(alloc: Global, word: &str, line: &[u8]) -> Result<Option<ParseError>, AllocError>
    ensures found { IfOk result
        (λ found. MatchOption found (IsFormulaBehind word.now line.now) (IsFormulaErrorBehind word.now line.now)) }
    ensures within { IfOk result
        (λ found. IfSome found (λ error. length word.now + error_place error ≤ length line.now)) }
{
    let Some(text) = after_word(line, word) else {
        return Ok(None);
    };
    let Err(error) = parse_formula(alloc, text) else {
        return Ok(None);
    };
    if matches!(error, ParseError::Memory) {
        return Err(AllocError);
    }
    Ok(Some(error))
}

/// The error of the term that stands in a line behind a word. None where the line does not begin with the word, or a term stands there.
fn term_error_behind(
    alloc: Global,
    word: &str,
    line: &[u8],
) -> Result<Option<ParseError>, AllocError>
    ensures found { IfOk result
        (λ found. MatchOption found (IsTermBehind word.now line.now) (IsTermErrorBehind word.now line.now)) }
    ensures within { IfOk result
        (λ found. IfSome found (λ error. length word.now + error_place error ≤ length line.now)) }
{
    let Some(text) = after_word(line, word) else {
        return Ok(None);
    };
    let Err(error) = parse_term(alloc, text) else {
        return Ok(None);
    };
    if !matches!(error, ParseError::Memory) {
        return Ok(Some(error));
    }
    Err(AllocError)
}

/// How many bytes of a formula's or a term's text stand before what is wrong.
fn place_of(error: ParseError) -> u64
    ensures { result ≡ error_place error }
{
    match error {
        ParseError::Unexpected { place }
        | ParseError::TooDeep { place }
        | ParseError::BadNumber { place }
        | ParseError::BadName { place }
        | ParseError::BadText { place } => place,
        ParseError::TooLong | ParseError::Memory => 0,
    }
}

fn name_of(error: ParseError) -> &'static str
    ensures { result.now ≡ error_name error }
{
    match error {
        ParseError::Unexpected { place: _ } => "Unexpected",
        ParseError::TooLong => "TooLong",
        ParseError::TooDeep { place: _ } => "TooDeep",
        ParseError::BadNumber { place: _ } => "BadNumber",
        ParseError::BadName { place: _ } => "BadName",
        ParseError::BadText { place: _ } => "BadText",
        ParseError::Memory => "",
    }
}
