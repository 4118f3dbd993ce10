ghost use Rattle.std.specs.Prelude.{◌≡◌, ◌≢◌, [], ℕ, List, IfOk, MatchOption};
ghost use Rattle.nal_term.specs.Names.{IsName};
ghost use Rattle.nal_term.specs.Trees.{formula_tree, term_tree, term_trees};
ghost use Rattle.nal_term.specs.Trees as tree;
ghost use Rattle.nal_parse.specs.Grammar.{quantify, quantifier_of, comparison_of};
ghost use Rattle.nal_parse.specs.Tokens.{lexeme_of};
ghost use Rattle.nal_parse.specs.Inner.Reading.{part_tree};

use crate::lengths::{level_count, term_length, text_length};
use crate::parts::Part;
use crate::tokens::{Keyword, Quantifier, Token};
use nal_term::{Args, Compare, Formula, Name, Term};
use std::alloc::{AllocError, Global};

/// The conjunction of two formulas.
pub fn and(alloc: Global, left: Part, right: Part) -> Result<Part, AllocError>
    ensures { IfOk result (λ f. part_tree f ≡ tree.and (part_tree left) (part_tree right)) }
{
    let bytes = left
        .bytes_within(3)
        .saturating_add(5)
        .saturating_add(right.bytes_within(4));
    let levels = left.levels_within(3).max(right.levels_within(4));
    let formula = Box::new(alloc, Formula::And(left.formula, right.formula))?;
    Ok(Part {
        formula,
        bytes,
        levels,
    })
}

/// The disjunction of two formulas.
pub fn or(alloc: Global, left: Part, right: Part) -> Result<Part, AllocError>
    ensures { IfOk result (λ f. part_tree f ≡ tree.or (part_tree left) (part_tree right)) }
{
    let bytes = left
        .bytes_within(2)
        .saturating_add(4)
        .saturating_add(right.bytes_within(3));
    let levels = left.levels_within(2).max(right.levels_within(3));
    let formula = Box::new(alloc, Formula::Or(left.formula, right.formula))?;
    Ok(Part {
        formula,
        bytes,
        levels,
    })
}

/// The implication between two formulas.
pub fn implies(alloc: Global, left: Part, right: Part) -> Result<Part, AllocError>
    ensures { IfOk result (λ f. part_tree f ≡ tree.implies (part_tree left) (part_tree right)) }
{
    let bytes = left
        .bytes_within(2)
        .saturating_add(4)
        .saturating_add(right.bytes);
    let levels = left.levels_within(2).max(right.levels.saturating_add(1));
    let formula = Box::new(alloc, Formula::Implies(left.formula, right.formula))?;
    Ok(Part {
        formula,
        bytes,
        levels,
    })
}

/// The implication of what is false.
pub fn negated(alloc: Global, part: Part) -> Result<Part, AllocError>
    ensures { IfOk result (λ f. part_tree f ≡ tree.implies (part_tree part) tree.falsum) }
{
    let falsum = leaf(alloc, Formula::False)?;
    implies(alloc, part, falsum)
}

/// The formula that the speaker says.
pub fn says(alloc: Global, speaker: Term, said: Part) -> Result<Part, AllocError>
    ensures { IfOk result (λ f. part_tree f ≡ tree.says (term_tree speaker) (part_tree said)) }
{
    let bytes = term_length(&speaker)
        .saturating_add(6)
        .saturating_add(said.bytes_within(4));
    let levels = said.levels_within(4).saturating_add(1);
    let formula = Box::new(alloc, Formula::Says(speaker, said.formula))?;
    Ok(Part {
        formula,
        bytes,
        levels,
    })
}

/// The formula under a quantifier over the variable.
pub fn quantified(
    alloc: Global,
    quantifier: Quantifier,
    variable: &[u8],
    part: Part,
) -> Result<Part, AllocError>
    requires { IsName variable.now }
    ensures { IfOk result (λ f. part_tree f ≡ quantify quantifier variable.now (part_tree part)) }
{
    let bytes = (variable.len() as u64)
        .saturating_add(11)
        .saturating_add(part.bytes);
    let levels = part.levels.saturating_add(1);
    let variable = Name::copy_of(alloc, variable)?;
    let formula = match quantifier {
        Quantifier::Universal => Formula::Forall(variable, part.formula),
        Quantifier::Existential => Formula::Exists(variable, part.formula),
    };
    let formula = Box::new(alloc, formula)?;
    Ok(Part {
        formula,
        bytes,
        levels,
    })
}

/// A formula that has no other one below it: of these alone a walk is short.
pub fn leaf(alloc: Global, formula: Formula) -> Result<Part, AllocError>
    ensures { IfOk result (λ f. part_tree f ≡ formula_tree formula) }
{
    let bytes = text_length(&formula);
    let levels = level_count(&formula);
    let formula = Box::new(alloc, formula)?;
    Ok(Part {
        formula,
        bytes,
        levels,
    })
}

/// The atom without arguments of this predicate.
pub fn named(alloc: Global, predicate: &[u8]) -> Result<Part, AllocError>
    requires { IsName predicate.now }
    ensures { IfOk result (λ f. part_tree f ≡ tree.atom predicate.now []) }
{
    let bytes = predicate.len() as u64;
    let predicate = Name::copy_of(alloc, predicate)?;
    let formula = Box::new(alloc, Formula::Atom(predicate, Args::new(alloc)))?;
    Ok(Part {
        formula,
        bytes,
        levels: 0,
    })
}

/// The atom without arguments whose predicate the term is, where it is a name.
pub fn atom(alloc: Global, term: Term) -> Option<Formula>
    ensures { MatchOption result
        ((p : List ℕ) → term_tree term ≢ tree.name p)
        (λ f. (p : List ℕ) × (term_tree term ≡ tree.name p) × (formula_tree f ≡ tree.atom p [])) }
{
    match term.into_name() {
        Some(predicate) => Some(Formula::Atom(predicate, Args::new(alloc))),
        None => None,
    }
}

/// The quantifier that the token stands for.
pub fn quantifier(token: &Token) -> Option<Quantifier>
    ensures { result ≡ quantifier_of (lexeme_of token.now) }
{
    match token {
        Token::Keyword(Keyword::Forall) => Some(Quantifier::Universal),
        Token::Keyword(Keyword::Exists) => Some(Quantifier::Existential),
        _ => None,
    }
}

/// The comparison that the token stands for.
pub fn comparison(token: &Token) -> Option<Compare>
    ensures { result ≡ comparison_of (lexeme_of token.now) }
{
    match token {
        Token::Equal => Some(Compare::Equal),
        Token::Less => Some(Compare::Less),
        Token::AtMost => Some(Compare::AtMost),
        _ => None,
    }
}

/// The atom with this predicate and these arguments.
pub fn atom_of(alloc: Global, predicate: &[u8], args: Args) -> Result<Part, AllocError>
    requires { IsName predicate.now }
    ensures { IfOk result (λ f. part_tree f ≡ tree.atom predicate.now (term_trees args)) }
{
    let predicate = Name::copy_of(alloc, predicate)?;
    leaf(alloc, Formula::Atom(predicate, args))
}
