ghost use Rattle.std.specs.Prelude.{IfOk, MatchOption, option_map};
ghost use Rattle.nal_term.specs.Trees.{term_tree};
ghost use Rattle.proof_lines.specs.Lines.{reference_count};
ghost use Rattle.proof_text.specs.ProofText.{BeginsWithNumbers, BeginsWithTerm, BeginsWithOptionalTerm, HasHead};
ghost use Rattle.proof_text.specs.Inner.Reading.{Reads, NoForm, head_of};

use crate::names::rule_of;
use crate::parts::{after_colon, bracket, number, numbers, run};
use nal_parse::{ParseError, parse_term};
use nal_term::Term;
use proof_lines::{Refs, Rule};
use std::alloc::{AllocError, Global};

/// What stands before the formula of a line.
#[derive(Drop)]
pub struct LineHead {
    pub number: u64,
    pub rule: Rule,
    pub refs: Refs,
    pub term: Option<Term>,
}

/// The head of the line that a segment writes, and the text of its formula. None where the segment lacks the
/// form of a line up to its `:`, and an error where there is no memory for the head's term.
pub fn head(alloc: Global, segment: &[u8]) -> Result<Option<(LineHead, &[u8])>, AllocError>
    ensures { IfOk result (λ found. MatchOption found
        (NoForm (HasHead segment.now))
        (λ r. Reads (HasHead segment.now) (head_of r.0) r.1.now)) }
{
    let Some((number, after_number)) = number(segment) else {
        return Ok(None);
    };
    let (name, after_rule) = run(after_number);
    let Some(rule) = rule_of(name) else {
        return Ok(None);
    };
    let Some((refs, after_references)) = references(after_rule, rule) else {
        return Ok(None);
    };
    match optional_term(alloc, rule.takes_term(), after_references) {
        Err(error) => Err(error),
        Ok(None) => Ok(None),
        Ok(Some((term, after_term))) => match after_colon(after_term) {
            None => Ok(None),
            Some(text) => Ok(Some((
                LineHead {
                    number,
                    rule,
                    refs,
                    term,
                },
                text,
            ))),
        },
    }
}

/// The references of a line of a rule, and what follows them.
fn references(text: &[u8], rule: Rule) -> Option<(Refs, &[u8])>
    ensures { MatchOption result
        (NoForm (BeginsWithNumbers (reference_count rule) text.now))
        (λ r. Reads (BeginsWithNumbers (reference_count rule) text.now) r.0 r.1.now) }
{
    let count = rule.reference_count() as usize;
    let mut found = [0u64; 5];
    match numbers(text, &mut found[..count]) {
        None => None,
        Some(rest) => match Refs::of(&found[..count]) {
            None => None,
            Some(refs) => Some((refs, rest)),
        },
    }
}

/// The term in brackets where the rule has one, else None, and what follows.
fn optional_term(
    alloc: Global,
    takes: bool,
    text: &[u8],
) -> Result<Option<(Option<Term>, &[u8])>, AllocError>
    ensures { IfOk result (λ found. MatchOption found
        (NoForm (BeginsWithOptionalTerm takes text.now))
        (λ r. Reads (BeginsWithOptionalTerm takes text.now) (option_map term_tree r.0) r.1.now)) }
{
    if !takes {
        return Ok(Some((None, text)));
    }
    match bracketed_term(alloc, text) {
        Err(error) => Err(error),
        Ok(None) => Ok(None),
        Ok(Some((term, rest))) => Ok(Some((Some(term), rest))),
    }
}

/// The term in brackets that a text begins with after blanks, and what follows it.
fn bracketed_term(alloc: Global, text: &[u8]) -> Result<Option<(Term, &[u8])>, AllocError>
    ensures { IfOk result (λ found. MatchOption found
        (NoForm (BeginsWithTerm text.now))
        (λ r. Reads (BeginsWithTerm text.now) (term_tree r.0) r.1.now)) }
{
    let Some((inner, rest)) = bracket(text) else {
        return Ok(None);
    };
    match parse_term(alloc, inner) {
        Ok(term) => Ok(Some((term, rest))),
        Err(error) => match error {
            ParseError::Memory => Err(AllocError),
            _ => Ok(None),
        },
    }
}
