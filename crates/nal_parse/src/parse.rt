ghost use Rattle.std.specs.Prelude.{◌≡◌, ◌≢◌, ◌<◌, length, IfOk, IfErr};
ghost use Rattle.nal_term.specs.Trees.{FormulaTree, TermTree, formula_tree, term_tree};
ghost use Rattle.nal_parse.specs.Grammar.{IsFormulaText, IsTermText};
ghost use Rattle.nal_parse.specs.Errors.{IsFormulaError, IsTermError};

use crate::formulas::read_formula;
use crate::lengths::term_length;
use crate::reader::Reader;
use crate::terms::read_term;
use crate::tokens::Token;
use nal_term::{Formula, Term};
use std::alloc::Global;

/// Why a text was not read. Places are byte offsets from 0.
/// `docs/FORMATS.md`, "Which error", says which comes.
#[derive(Clone, Copy, Debug, PartialEq, Eq)]
pub enum ParseError {
    /// At this place no spelling goes on.
    Unexpected { place: u64 },
    /// The text has more than 1,024 bytes.
    TooLong,
    /// At this place the 65th level would be opened.
    TooDeep { place: u64 },
    /// A malformed number begins here.
    BadNumber { place: u64 },
    /// A malformed name begins here.
    BadName { place: u64 },
    /// A malformed quoted text begins here.
    BadText { place: u64 },
    /// There was no memory for the tree.
    Memory,
}

/// How many bytes a text may have.
const MOST_BYTES: u64 = 1024;

/// How many levels may be open at a place.
const MOST_LEVELS: u8 = 64;

/// Reads a formula's text. Ok exactly where the text spells the formula in at most 1,024 bytes, with at most
/// 64 levels open at once; no text spells two. `docs/FORMATS.md`, "Formula text", states the grammar.
pub fn parse_formula(alloc: Global, text: &[u8]) -> Result<Formula, ParseError>
    ensures ok { IfOk result (λ f. IsFormulaText text.now (formula_tree f)) }
    ensures only { IfOk result (λ f. (g : FormulaTree) → IsFormulaText text.now g → g ≡ formula_tree f) }
    ensures err { IfErr result (λ e. e ≢ ParseError.Memory → (g : FormulaTree) → ¬ IsFormulaText text.now g) }
    ensures long { 1024 < length text.now → result ≡ Err ParseError.TooLong }
    ensures error { IfErr result (λ e. e ≢ ParseError.Memory → IsFormulaError text.now e) }
{
    if text.len() as u64 > MOST_BYTES {
        return Err(ParseError::TooLong);
    }
    let mut reader = Reader::of(text);
    let part = match read_formula(alloc, MOST_LEVELS, &mut reader) {
        Ok(part) => part,
        Err(stop) => return Err(stop.error_in(text)),
    };
    match reader.token {
        Token::End if part.bytes > MOST_BYTES => Err(ParseError::TooLong),
        Token::End if part.levels > u64::from(MOST_LEVELS) => {
            Err(ParseError::TooDeep {
                place: text.len() as u64,
            })
        }
        Token::End => Ok(Box::into_inner(part.formula)),
        _ => Err(reader.stop().error_in(text)),
    }
}

/// Reads a term's text. Ok exactly where the text spells the term in at most 1,024 bytes; no text spells two.
/// `docs/FORMATS.md`, "Formula text", states the grammar.
pub fn parse_term(alloc: Global, text: &[u8]) -> Result<Term, ParseError>
    ensures ok { IfOk result (λ t. IsTermText text.now (term_tree t)) }
    ensures only { IfOk result (λ t. (u : TermTree) → IsTermText text.now u → u ≡ term_tree t) }
    ensures err { IfErr result (λ e. e ≢ ParseError.Memory → (u : TermTree) → ¬ IsTermText text.now u) }
    ensures long { 1024 < length text.now → result ≡ Err ParseError.TooLong }
    ensures error { IfErr result (λ e. e ≢ ParseError.Memory → IsTermError text.now e) }
{
    if text.len() as u64 > MOST_BYTES {
        return Err(ParseError::TooLong);
    }
    let mut reader = Reader::of(text);
    let term = match read_term(alloc, &mut reader) {
        Ok(term) => term,
        Err(stop) => return Err(stop.error_in(text)),
    };
    match reader.token {
        Token::End if term_length(&term) > MOST_BYTES => Err(ParseError::TooLong),
        Token::End => Ok(term),
        _ => Err(reader.stop().error_in(text)),
    }
}
