ghost use Rattle.std.specs.Prelude.{◌≡◌, ◌≢◌, ◌<◌, ◌≤◌, ◌-◌, ℕ, List, [], length, Some, None, IfOk};
ghost use Rattle.nal_term.specs.Names.{IsName};
ghost use Rattle.nal_term.specs.Trees.{term_tree};
ghost use Rattle.nal_term.specs.Trees as tree;
ghost use Rattle.nal_parse.specs.Tokens as lexeme;
ghost use Rattle.nal_parse.specs.Tokens.{lexeme_of};
ghost use Rattle.nal_parse.specs.Grammar.{ReadsFormula, ReadsImplication, ReadsDisjunction, ReadsConjunction, ReadsUnary};
ghost use Rattle.nal_parse.specs.Inner.Reading.{IsReading, ReadsContinued, ReadsMade, ReadsQuantified, ReadsRest, ReadsThen, ends_formula, ends_disjunction, ends_conjunction, ends_unary, part_tree};

use crate::makers;
use crate::parts::Part;
use crate::reader::Reader;
use crate::statements::{read_atom, read_judged};
use crate::stops::Stop;
use crate::terms::{first_term, read_parts};
use crate::tokens::{Keyword, Quantifier, Token};
use nal_term::{Formula, Name, Term};
use std::alloc::{AllocError, Global};

/// formula = ("forall" | "exists") variable ":" formula | implication
#[cycle(formula)]
pub fn read_formula(alloc: Global, levels: u8, reader: &mut Reader) -> Result<Part, Stop>
    ensures reading { IsReading part_tree ends_formula ReadsFormula levels reader.old.text.now reader.new.text.now
        result }
    ensures shorter { IfOk result (λ _. length reader.new.text.now < length reader.old.text.now) }
{
    match makers::quantifier(&reader.token) {
        Some(quantifier) => {
            if levels == 0 {
                return Err(reader.too_deep());
            }
            reader.advance();
            read_quantified(alloc, quantifier, levels - 1, reader)
        }
        None => read_implication(alloc, levels, reader),
    }
}

/// variable ":" formula, after the quantifier
#[cycle(formula)]
fn read_quantified(
    alloc: Global,
    quantifier: Quantifier,
    levels: u8,
    reader: &mut Reader,
) -> Result<Part, Stop>
    ensures reading { IsReading part_tree ends_formula (ReadsQuantified quantifier) levels reader.old.text.now
        reader.new.text.now result }
    ensures shorter { IfOk result (λ _. length reader.new.text.now < length reader.old.text.now) }
{
    let Token::Variable(variable) = reader.token else {
        return Err(reader.stop());
    };
    reader.advance();
    let Token::Colon = reader.token else {
        return Err(reader.stop());
    };
    reader.advance();
    match read_formula(alloc, levels, reader) {
        Ok(part) => match makers::quantified(alloc, quantifier, variable, part) {
            Ok(part) => Ok(part),
            Err(AllocError) => Err(Stop::Memory),
        },
        Err(stop) => Err(stop),
    }
}

/// implication = disjunction [ "=>" formula ]
#[cycle(formula)]
fn read_implication(alloc: Global, levels: u8, reader: &mut Reader) -> Result<Part, Stop>
    ensures reading { IsReading part_tree ends_formula ReadsImplication levels reader.old.text.now reader.new.text.now
        result }
    ensures shorter { IfOk result (λ _. length reader.new.text.now < length reader.old.text.now) }
{
    let left = match read_disjunction(alloc, levels, reader) {
        Ok(left) => left,
        Err(stop) => return Err(stop),
    };
    let Token::Arrow = reader.token else {
        return Ok(left);
    };
    if levels == 0 {
        return Err(reader.too_deep());
    }
    reader.advance();
    match read_formula(alloc, levels - 1, reader) {
        Ok(right) => match makers::implies(alloc, left, right) {
            Ok(part) => Ok(part),
            Err(AllocError) => Err(Stop::Memory),
        },
        Err(stop) => Err(stop),
    }
}

/// disjunction = conjunction { "or" conjunction }, grouped to the left
#[cycle(formula)]
fn read_disjunction(alloc: Global, levels: u8, reader: &mut Reader) -> Result<Part, Stop>
    ensures reading { IsReading part_tree ends_disjunction ReadsDisjunction levels reader.old.text.now
        reader.new.text.now result }
    ensures shorter { IfOk result (λ _. length reader.new.text.now < length reader.old.text.now) }
{
    let mut left = match read_conjunction(alloc, levels, reader) {
        Ok(first) => first,
        Err(stop) => return Err(stop),
    };
    while reader.token.is(Keyword::Or) {
        reader.advance();
        let right = match read_conjunction(alloc, levels, reader) {
            Ok(right) => right,
            Err(stop) => return Err(stop),
        };
        left = match makers::or(alloc, left, right) {
            Ok(part) => part,
            Err(AllocError) => return Err(Stop::Memory),
        };
    }
    Ok(left)
}

/// conjunction = unary { "and" unary }, grouped to the left
#[cycle(formula)]
fn read_conjunction(alloc: Global, levels: u8, reader: &mut Reader) -> Result<Part, Stop>
    ensures reading { IsReading part_tree ends_conjunction ReadsConjunction levels reader.old.text.now
        reader.new.text.now result }
    ensures shorter { IfOk result (λ _. length reader.new.text.now < length reader.old.text.now) }
{
    let mut left = match read_unary(alloc, levels, reader) {
        Ok(first) => first,
        Err(stop) => return Err(stop),
    };
    while reader.token.is(Keyword::And) {
        reader.advance();
        let right = match read_unary(alloc, levels, reader) {
            Ok(right) => right,
            Err(stop) => return Err(stop),
        };
        left = match makers::and(alloc, left, right) {
            Ok(part) => part,
            Err(AllocError) => return Err(Stop::Memory),
        };
    }
    Ok(left)
}

/// unary = "not" unary | "true" | "false" | "(" formula ")" | name "(" term { "," term } ")"
///         | term predicate | name
#[cycle(formula)]
fn read_unary(alloc: Global, levels: u8, reader: &mut Reader) -> Result<Part, Stop>
    ensures reading { IsReading part_tree ends_unary ReadsUnary levels reader.old.text.now reader.new.text.now result }
    ensures shorter { IfOk result (λ _. length reader.new.text.now < length reader.old.text.now) }
{
    match reader.token {
        Token::Keyword(keyword) => read_word(alloc, levels, keyword, reader),
        Token::Open => {
            if levels == 0 {
                return Err(reader.too_deep());
            }
            reader.advance();
            read_group(alloc, levels - 1, reader)
        }
        Token::Name(name) => {
            reader.advance();
            let Token::Open = reader.token else {
                return read_subject(alloc, levels, name, reader);
            };
            if levels == 0 {
                return Err(reader.too_deep());
            }
            reader.advance();
            read_atom(alloc, name, reader)
        }
        _ => read_statement(alloc, levels, reader),
    }
}

/// term predicate, where no name stands in front
// Apart, as are the words and what follows a term, so that a bracket and a name take little stack and time.
#[inline(never)]
#[cycle(formula)]
fn read_statement(alloc: Global, levels: u8, reader: &mut Reader) -> Result<Part, Stop>
    requires name { (x : List ℕ) → lexeme_of reader.old.token ≢ lexeme.name x }
    requires word { (k : Keyword) → lexeme_of reader.old.token ≢ lexeme.keyword k }
    requires bracket { lexeme_of reader.old.token ≢ lexeme.opens }
    ensures reading { IsReading part_tree ends_unary ReadsUnary levels reader.old.text.now reader.new.text.now result }
    ensures shorter { IfOk result (λ _. length reader.new.text.now < length reader.old.text.now) }
{
    match first_term(alloc, &reader.token) {
        Ok(Some(first)) => {
            reader.advance();
            read_continued(alloc, levels, first, reader)
        }
        Ok(None) => Err(reader.stop()),
        Err(AllocError) => Err(Stop::Memory),
    }
}

/// "not" unary | "true" | "false", where a reserved word stands in front
#[inline(never)]
#[cycle(formula)]
fn read_word(alloc: Global, levels: u8, keyword: Keyword, reader: &mut Reader) -> Result<Part, Stop>
    requires { lexeme_of reader.old.token ≡ lexeme.keyword keyword }
    ensures reading { IsReading part_tree ends_unary ReadsUnary levels reader.old.text.now reader.new.text.now result }
    ensures shorter { IfOk result (λ _. length reader.new.text.now < length reader.old.text.now) }
{
    match keyword {
        Keyword::True => {
            reader.advance();
            match makers::leaf(alloc, Formula::True) {
                Ok(part) => Ok(part),
                Err(AllocError) => Err(Stop::Memory),
            }
        }
        Keyword::False => {
            reader.advance();
            match makers::leaf(alloc, Formula::False) {
                Ok(part) => Ok(part),
                Err(AllocError) => Err(Stop::Memory),
            }
        }
        Keyword::Not => {
            if levels == 0 {
                return Err(reader.too_deep());
            }
            reader.advance();
            read_negated(alloc, levels - 1, reader)
        }
        _ => Err(reader.stop()),
    }
}

/// unary, after `not`
#[cycle(formula)]
fn read_negated(alloc: Global, levels: u8, reader: &mut Reader) -> Result<Part, Stop>
    ensures reading { IsReading part_tree ends_unary (ReadsMade (λ f. tree.implies f tree.falsum) ReadsUnary) levels
        reader.old.text.now reader.new.text.now result }
    ensures shorter { IfOk result (λ _. length reader.new.text.now < length reader.old.text.now) }
{
    match read_unary(alloc, levels, reader) {
        Ok(part) => match makers::negated(alloc, part) {
            Ok(part) => Ok(part),
            Err(AllocError) => Err(Stop::Memory),
        },
        Err(stop) => Err(stop),
    }
}

/// formula ")", after the opening bracket
#[cycle(formula)]
fn read_group(alloc: Global, levels: u8, reader: &mut Reader) -> Result<Part, Stop>
    ensures reading { IsReading part_tree ends_unary (ReadsThen ReadsFormula lexeme.closes) levels reader.old.text.now
        reader.new.text.now result }
    ensures shorter { IfOk result (λ _. length reader.new.text.now < length reader.old.text.now) }
{
    let part = match read_formula(alloc, levels, reader) {
        Ok(part) => part,
        Err(stop) => return Err(stop),
    };
    let Token::Close = reader.token else {
        return Err(reader.stop());
    };
    reader.advance();
    Ok(part)
}

/// { "." name } predicate, or nothing, after a name that no bracket follows
#[cycle(formula)]
fn read_subject(alloc: Global, levels: u8, name: &[u8], reader: &mut Reader) -> Result<Part, Stop>
    requires { IsName name.now }
    ensures reading { IsReading part_tree ends_unary (ReadsContinued (tree.name name.now)) levels reader.old.text.now
        reader.new.text.now result }
    ensures bound { IfOk result (λ _. length reader.new.text.now ≤ length reader.old.text.now) }
{
    if reader.token.goes_on() {
        return read_saying(alloc, levels, name, reader);
    }
    match makers::named(alloc, name) {
        Ok(part) => Ok(part),
        Err(AllocError) => Err(Stop::Memory),
    }
}

/// { "." name } predicate, or nothing, after a name
#[inline(never)]
#[cycle(formula)]
fn read_saying(alloc: Global, levels: u8, name: &[u8], reader: &mut Reader) -> Result<Part, Stop>
    requires { IsName name.now }
    ensures reading { IsReading part_tree ends_unary (ReadsContinued (tree.name name.now)) levels reader.old.text.now
        reader.new.text.now result }
    ensures bound { IfOk result (λ _. length reader.new.text.now ≤ length reader.old.text.now) }
{
    match Name::copy_of(alloc, name) {
        Ok(name) => read_continued(alloc, levels, Term::Name(name), reader),
        Err(AllocError) => Err(Stop::Memory),
    }
}

/// { "." name } predicate, or nothing after a name alone: a statement after its first token, which is a term
#[cycle(formula)]
fn read_continued(alloc: Global, levels: u8, first: Term, reader: &mut Reader) -> Result<Part, Stop>
    ensures reading { IsReading part_tree ends_unary (ReadsContinued (term_tree first)) levels reader.old.text.now
        reader.new.text.now result }
    ensures bound { IfOk result (λ _. length reader.new.text.now ≤ length reader.old.text.now) }
{
    let Token::Dot = reader.token else {
        return read_rest(alloc, levels, first, reader);
    };
    read_longer(alloc, levels, first, reader)
}

/// "." name { "." name } predicate
#[inline(never)]
#[cycle(formula)]
fn read_longer(alloc: Global, levels: u8, first: Term, reader: &mut Reader) -> Result<Part, Stop>
    ensures reading { IsReading part_tree ends_unary (ReadsContinued (term_tree first)) levels reader.old.text.now
        reader.new.text.now result }
    ensures bound { IfOk result (λ _. length reader.new.text.now ≤ length reader.old.text.now) }
{
    match read_parts(alloc, first, reader) {
        Ok(term) => read_rest(alloc, levels, term, reader),
        Err(stop) => Err(stop),
    }
}

/// "says" unary | "speaksfor" term [ "on" scope ] | ("=" | "<" | "<=") term, or nothing after a name: a statement
/// after its term
#[cycle(formula)]
fn read_rest(alloc: Global, levels: u8, term: Term, reader: &mut Reader) -> Result<Part, Stop>
    ensures reading { IsReading part_tree ends_unary (ReadsRest (term_tree term)) levels reader.old.text.now
        reader.new.text.now result }
    ensures bound { IfOk result (λ _. length reader.new.text.now ≤ length reader.old.text.now) }
{
    if reader.token.is(Keyword::Says) {
        if levels == 0 {
            return Err(reader.too_deep());
        }
        reader.advance();
        return read_said(alloc, levels - 1, term, reader);
    }
    read_judged(alloc, levels, term, reader)
}

/// unary, after `says`
#[cycle(formula)]
fn read_said(alloc: Global, levels: u8, speaker: Term, reader: &mut Reader) -> Result<Part, Stop>
    ensures reading { IsReading part_tree ends_unary (ReadsMade (λ f. tree.says (term_tree speaker) f) ReadsUnary)
        levels reader.old.text.now reader.new.text.now result }
    ensures shorter { IfOk result (λ _. length reader.new.text.now < length reader.old.text.now) }
{
    match read_unary(alloc, levels, reader) {
        Ok(said) => match makers::says(alloc, speaker, said) {
            Ok(part) => Ok(part),
            Err(AllocError) => Err(Stop::Memory),
        },
        Err(stop) => Err(stop),
    }
}
