ghost use Rattle.std.specs.Prelude.{◌≡◌, ◌≤◌, ◌+◌, ◌-◌, ◌^◌, ◌↔◌, [], min, map, IsTrue, length};
ghost use Rattle.std.specs.Fmt.{decimal};
ghost use Rattle.nal_term.specs.Trees.{formula_tree, term_tree, term_trees};
ghost use Rattle.nal_term.specs.Trees as tree;
ghost use Rattle.nal_parse.specs.Canonical.{FormulaFits, TermFits, comparison_sign, formula_levels, formula_text, joined, part_levels, part_text, scope_text, term_text};

use crate::printer::strength;
use nal_term::{Args, Compare, Formula, Name, Scope, Term};

/// How many bytes the term's canonical text has; `u64::MAX` where there are more. It takes no memory.
pub fn term_length(t: &Term) -> u64
    ensures { result ≡ min (length (term_text (term_tree t.now))) (2 ^ 64 - 1) }
{
    match t {
        Term::Number(number) => digit_count(*number),
        Term::Name(name) => name.as_slice().len() as u64,
        Term::Text(text) => (text.as_slice().len() as u64).saturating_add(2),
        Term::Var(name) => (name.as_slice().len() as u64).saturating_add(1),
        Term::Sub(term, name) => term_length(term)
            .saturating_add(1)
            .saturating_add(name.as_slice().len() as u64),
    }
}

/// How many decimal digits the number has: at most 20. It takes no memory.
#[tactic(auto, using(crate::proofs::DigitCounts::more_digits, crate::proofs::DigitCounts::one_digit))]
pub fn digit_count(number: u64) -> u64
    ensures count { result ≡ length (decimal number) }
    ensures most { result ≤ number + 1 }
{
    if number < 10 {
        1
    } else {
        digit_count(number / 10) + 1
    }
}

/// The length of the terms' texts, with a comma and a space between them.
fn terms_length(terms: &[Term]) -> u64
    ensures { result ≡ min (length (joined (map term_text (term_trees terms.now)))) (2 ^ 64 - 1) }
{
    match terms.split_first() {
        None => 0,
        Some((first, rest)) => {
            if rest.is_empty() {
                return term_length(first);
            }
            term_length(first)
                .saturating_add(2)
                .saturating_add(terms_length(rest))
        }
    }
}

/// The length of the names, with a comma and a space between them.
fn names_length(names: &[Name]) -> u64
    ensures { result ≡ min (length (joined names.now)) (2 ^ 64 - 1) }
{
    match names.split_first() {
        None => 0,
        Some((first, rest)) => {
            let length = first.as_slice().len() as u64;
            if rest.is_empty() {
                return length;
            }
            length.saturating_add(2).saturating_add(names_length(rest))
        }
    }
}

fn atom_length(predicate: &Name, args: &Args) -> u64
    ensures { result ≡ min (length (formula_text (tree.atom predicate.now (term_trees args.now)))) (2 ^ 64 - 1) }
{
    let length = predicate.as_slice().len() as u64;
    if args.count() == 0 {
        return length;
    }
    length
        .saturating_add(2)
        .saturating_add(terms_length(args.as_slice()))
}

fn scope_length(scope: &Scope) -> u64
    ensures { result ≡ min (length (scope_text scope.now)) (2 ^ 64 - 1) }
{
    let length = names_length(scope.as_slice());
    if scope.count() == 1 {
        length
    } else {
        length.saturating_add(2)
    }
}

fn sign_length(compare: Compare) -> u64
    ensures sign { result ≡ length (comparison_sign compare) }
    ensures most { result ≤ 4 }
{
    match compare {
        Compare::Equal | Compare::Less => 3,
        Compare::AtMost => 4,
    }
}

/// How many bytes the formula's canonical text has; `u64::MAX` where there are more. It takes no memory.
/// `docs/FORMATS.md`, "Canonical text", states the text.
#[cycle(lengths)]
pub fn text_length(f: &Formula) -> u64
    ensures { result ≡ min (length (formula_text (formula_tree f.now))) (2 ^ 64 - 1) }
{
    match f {
        Formula::True => 4,
        Formula::False => 5,
        Formula::Atom(predicate, args) => atom_length(predicate, args),
        Formula::Test(compare, left, right) => term_length(left)
            .saturating_add(sign_length(*compare))
            .saturating_add(term_length(right)),
        Formula::And(left, right) => part_length(3, left)
            .saturating_add(5)
            .saturating_add(part_length(4, right)),
        Formula::Or(left, right) => part_length(2, left)
            .saturating_add(4)
            .saturating_add(part_length(3, right)),
        Formula::Implies(left, right) => part_length(2, left)
            .saturating_add(4)
            .saturating_add(text_length(right)),
        Formula::Forall(variable, body) | Formula::Exists(variable, body) => {
            let length = variable.as_slice().len() as u64;
            length.saturating_add(11).saturating_add(text_length(body))
        }
        Formula::Says(speaker, said) => term_length(speaker)
            .saturating_add(6)
            .saturating_add(part_length(4, said)),
        Formula::SpeaksFor(speaker, principal) => delegation_length(speaker, principal),
        Formula::SpeaksForOn(speaker, principal, scope) => delegation_length(speaker, principal)
            .saturating_add(4)
            .saturating_add(scope_length(scope)),
    }
}

/// The length of a part's text, with the brackets that stand round it where its strength is below the one
/// asked for.
#[cycle(lengths)]
fn part_length(asked: u8, part: &Formula) -> u64
    ensures { result
        ≡ min (length (part_text asked (formula_tree part.now) (formula_text (formula_tree part.now)))) (2 ^ 64 - 1) }
{
    if strength(part) < asked {
        text_length(part).saturating_add(2)
    } else {
        text_length(part)
    }
}

fn delegation_length(speaker: &Term, principal: &Term) -> u64
    ensures { result
        ≡ min (length (formula_text (tree.speaks_for (term_tree speaker.now) (term_tree principal.now)))) (2 ^ 64 - 1) }
{
    term_length(speaker)
        .saturating_add(11)
        .saturating_add(term_length(principal))
}

/// How many levels the formula's canonical text opens at once; `u64::MAX` where there are more.
#[cycle(levels)]
pub fn level_count(f: &Formula) -> u64
    ensures { result ≡ min (formula_levels (formula_tree f.now)) (2 ^ 64 - 1) }
{
    match f {
        Formula::True | Formula::False | Formula::Test(_, _, _) | Formula::SpeaksFor(_, _) => 0,
        Formula::Atom(_, args) => u64::from(args.count() > 0),
        Formula::And(left, right) => part_level_count(3, left).max(part_level_count(4, right)),
        Formula::Or(left, right) => part_level_count(2, left).max(part_level_count(3, right)),
        Formula::Implies(left, right) => {
            part_level_count(2, left).max(level_count(right).saturating_add(1))
        }
        Formula::Forall(_, body) | Formula::Exists(_, body) => level_count(body).saturating_add(1),
        Formula::Says(_, said) => part_level_count(4, said).saturating_add(1),
        Formula::SpeaksForOn(_, _, scope) => u64::from(scope.count() > 1),
    }
}

/// The levels of a part, one more where it stands in brackets.
#[cycle(levels)]
fn part_level_count(asked: u8, part: &Formula) -> u64
    ensures { result
        ≡ min (part_levels asked (formula_tree part.now) (formula_levels (formula_tree part.now))) (2 ^ 64 - 1) }
{
    if strength(part) < asked {
        level_count(part).saturating_add(1)
    } else {
        level_count(part)
    }
}

/// Whether the formula's canonical text keeps the limits: 1,024 bytes, and 64 levels open at once.
/// It takes no memory. `docs/FORMATS.md`, "Limits", states them.
pub fn fits(f: &Formula) -> bool
    ensures { IsTrue result ↔ FormulaFits (formula_tree f.now) }
{
    text_length(f) <= 1024 && level_count(f) <= 64
}

/// Whether the formula `t says f` fits. It builds nothing, and takes no memory.
pub fn fits_said(t: &Term, f: &Formula) -> bool
    ensures { IsTrue result ↔ FormulaFits (tree.says (term_tree t.now) (formula_tree f.now)) }
{
    let length = term_length(t)
        .saturating_add(6)
        .saturating_add(part_length(4, f));
    length <= 1024 && part_level_count(4, f) < 64
}

/// Whether the term's canonical text keeps the limit of 1,024 bytes. It takes no memory.
pub fn term_fits(t: &Term) -> bool
    ensures { IsTrue result ↔ TermFits (term_tree t.now) }
{
    term_length(t) <= 1024
}
