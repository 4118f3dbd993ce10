//! What stands before the goal in an input of `trust`.
ghost use Rattle.std.specs.Prelude.{◌≡◌, ◌≢◌, ◌↔◌, [], IfErr, IfOk, IsTrue, List, ℕ};
ghost use Rattle.nal_term.specs.Names.{IsName};
ghost use Rattle.nal_term.specs.Trees.{FormulaTree, TermTree, atom, formula_tree, term_tree};
ghost use Rattle.trust_form.specs.Inner.Reading.{Adds, givens_tree};
ghost use Rattle.trust_form.specs.TrustForm as form;
ghost use Rattle.trust_form.specs.TrustForm.{IsFact, IsPrincipal, MayStand, subject_alone};

use crate::words::Word;
use form_lines::{LineError, formula, with_statement};
use nal_parse::{ParseError, parse_term};
use nal_term::{Formula, Name, NameError, Term, is_closed, is_closed_term};
use std::alloc::Global;

/// What stands before the goal.
#[derive(Drop)]
pub struct Givens {
    /// Who is to reach the goal.
    pub subject: Name,
    /// The labels that are held: closed formulas `P says S`, at most 4,096.
    pub labels: Vec<Formula>,
    /// The principals that are not trusted: closed terms, at most 64.
    pub untrusted: Vec<Term>,
    /// The predicates on which nobody is relied, at most 64.
    pub loose: Vec<Name>,
    /// The atoms that are taken as true: closed, at most 4,096.
    pub facts: Vec<Formula>,
}

/// What an input of `trust` holds.
#[derive(Drop)]
pub struct TrustForm {
    pub givens: Givens,
    /// The goal, whose only free variable is `?subject`.
    pub goal: Formula,
}

/// How many labels, and how many facts, an input may have.
const MOST_FORMULAS: usize = 4096;

/// How many untrusted principals, and how many loose predicates, an input may have.
const MOST_NAMES: usize = 64;

impl Givens {
    /// The givens of the subject with this name, and nothing else. `Wrong` exactly where the text is no name.
    pub fn of_subject(alloc: Global, text: &[u8]) -> Result<Givens, LineError>
        ensures ok { IfOk result (λ givens. givens_tree givens ≡ subject_alone text.now) }
        ensures name { IfOk result (λ _. IsName text.now) }
        ensures wrong { IfErr result (λ e. e ≢ LineError.Memory → ¬ IsName text.now) }
    {
        let subject = name(alloc, text)?;
        Ok(Givens {
            subject,
            labels: Vec::new(alloc),
            untrusted: Vec::new(alloc),
            loose: Vec::new(alloc),
            facts: Vec::new(alloc),
        })
    }

    /// Whether one line more with this word may stand: none of a later kind stands, and there is room.
    pub fn may_stand(&self, word: Word) -> bool
        ensures { IsTrue result ↔ MayStand word (givens_tree self.now) }
    {
        match word {
            Word::Label => {
                self.labels.len() < MOST_FORMULAS
                    && self.untrusted.is_empty()
                    && self.loose.is_empty()
                    && self.facts.is_empty()
            }
            Word::Untrusted => {
                self.untrusted.len() < MOST_NAMES && self.loose.is_empty() && self.facts.is_empty()
            }
            Word::Loose => self.loose.len() < MOST_NAMES && self.facts.is_empty(),
            Word::Fact => self.facts.len() < MOST_FORMULAS,
            Word::Goal => true,
        }
    }

    /// The same with what the text behind a word adds. `Wrong` exactly where the text is not as the word asks; behind the
    /// word of the goal nothing is added.
    pub fn with(self, alloc: Global, word: Word, text: &[u8]) -> Result<Givens, LineError>
        ensures ok { IfOk result (λ next. Adds word (givens_tree self) text.now (givens_tree next)) }
        ensures only { IfOk result
            (λ next. (other : form.Givens) → Adds word (givens_tree self) text.now other → other ≡ givens_tree next) }
        ensures wrong { IfErr result
            (λ e. e ≢ LineError.Memory → (other : form.Givens) → ¬ Adds word (givens_tree self) text.now other) }
    {
        match word {
            Word::Label => self.with_label(alloc, text),
            Word::Untrusted => self.with_untrusted(alloc, text),
            Word::Loose => self.with_loose(alloc, text),
            Word::Fact => self.with_fact(alloc, text),
            Word::Goal => Err(LineError::Wrong),
        }
    }

    /// The same with the label of this text. `Wrong` exactly where the text is of none.
    fn with_label(self, alloc: Global, text: &[u8]) -> Result<Givens, LineError>
        ensures ok { IfOk result (λ next. Adds Word.Label (givens_tree self) text.now (givens_tree next)) }
        ensures only { IfOk result
            (λ next. (other : form.Givens) → Adds Word.Label (givens_tree self) text.now other
            → other ≡ givens_tree next) }
        ensures wrong { IfErr result
            (λ e. e ≢ LineError.Memory → (other : form.Givens) → ¬ Adds Word.Label (givens_tree self) text.now other) }
    {
        let Givens {
            subject,
            labels,
            untrusted,
            loose,
            facts,
        } = self;
        let labels = with_statement(alloc, labels, text)?;
        Ok(Givens {
            subject,
            labels,
            untrusted,
            loose,
            facts,
        })
    }

    /// The same with the untrusted principal of this text. `Wrong` exactly where the text is of none.
    fn with_untrusted(self, alloc: Global, text: &[u8]) -> Result<Givens, LineError>
        ensures ok { IfOk result (λ next. Adds Word.Untrusted (givens_tree self) text.now (givens_tree next)) }
        ensures only { IfOk result
            (λ next. (other : form.Givens) → Adds Word.Untrusted (givens_tree self) text.now other
            → other ≡ givens_tree next) }
        ensures wrong { IfErr result
            (λ e. e ≢ LineError.Memory → (other : form.Givens)
            → ¬ Adds Word.Untrusted (givens_tree self) text.now other) }
    {
        let mut givens = self;
        let principal = principal(alloc, text)?;
        match givens.untrusted.push(principal) {
            Ok(()) => Ok(givens),
            Err(_) => Err(LineError::Memory),
        }
    }

    /// The same with the loose predicate of this name. `Wrong` exactly where the text is no name.
    fn with_loose(self, alloc: Global, text: &[u8]) -> Result<Givens, LineError>
        ensures ok { IfOk result (λ next. Adds Word.Loose (givens_tree self) text.now (givens_tree next)) }
        ensures only { IfOk result
            (λ next. (other : form.Givens) → Adds Word.Loose (givens_tree self) text.now other
            → other ≡ givens_tree next) }
        ensures wrong { IfErr result
            (λ e. e ≢ LineError.Memory → (other : form.Givens) → ¬ Adds Word.Loose (givens_tree self) text.now other) }
    {
        let mut givens = self;
        let predicate = name(alloc, text)?;
        match givens.loose.push(predicate) {
            Ok(()) => Ok(givens),
            Err(_) => Err(LineError::Memory),
        }
    }

    /// The same with the fact of this text. `Wrong` exactly where the text is of none.
    fn with_fact(self, alloc: Global, text: &[u8]) -> Result<Givens, LineError>
        ensures ok { IfOk result (λ next. Adds Word.Fact (givens_tree self) text.now (givens_tree next)) }
        ensures only { IfOk result
            (λ next. (other : form.Givens) → Adds Word.Fact (givens_tree self) text.now other
            → other ≡ givens_tree next) }
        ensures wrong { IfErr result
            (λ e. e ≢ LineError.Memory → (other : form.Givens) → ¬ Adds Word.Fact (givens_tree self) text.now other) }
    {
        let mut givens = self;
        let fact = fact(alloc, text)?;
        match givens.facts.push(fact) {
            Ok(()) => Ok(givens),
            Err(_) => Err(LineError::Memory),
        }
    }
}

/// The name of these bytes. `Wrong` exactly where they are no name.
fn name(alloc: Global, text: &[u8]) -> Result<Name, LineError>
    ensures ok { IfOk result (λ name. name ≡ text.now) }
    ensures name { IfOk result (λ _. IsName text.now) }
    ensures wrong { IfErr result (λ e. e ≢ LineError.Memory → ¬ IsName text.now) }
{
    match Name::of(alloc, text) {
        Ok(name) => Ok(name),
        Err(NameError::Bad) => Err(LineError::Wrong),
        Err(NameError::Memory) => Err(LineError::Memory),
    }
}

/// The closed term of this text. `Wrong` exactly where the text is of none.
fn principal(alloc: Global, text: &[u8]) -> Result<Term, LineError>
    ensures ok { IfOk result (λ t. IsPrincipal text.now (term_tree t)) }
    ensures only { IfOk result (λ t. (u : TermTree) → IsPrincipal text.now u → u ≡ term_tree t) }
    ensures wrong { IfErr result (λ e. e ≢ LineError.Memory → (u : TermTree) → ¬ IsPrincipal text.now u) }
{
    match parse_term(alloc, text) {
        Ok(term) if is_closed_term(&term) => Ok(term),
        Ok(_) => Err(LineError::Wrong),
        Err(ParseError::Memory) => Err(LineError::Memory),
        Err(_) => Err(LineError::Wrong),
    }
}

/// The closed atom of this text. `Wrong` exactly where the text is of none.
fn fact(alloc: Global, text: &[u8]) -> Result<Formula, LineError>
    ensures ok { IfOk result (λ f. IsFact text.now (formula_tree f)) }
    ensures only { IfOk result (λ f. (g : FormulaTree) → IsFact text.now g → g ≡ formula_tree f) }
    ensures wrong { IfErr result (λ e. e ≢ LineError.Memory → (g : FormulaTree) → ¬ IsFact text.now g) }
{
    let fact = formula(alloc, text)?;
    if !is_atom(&fact) {
        return Err(LineError::Wrong);
    }
    if !is_closed(&fact) {
        return Err(LineError::Wrong);
    }
    Ok(fact)
}

fn is_atom(formula: &Formula) -> bool
    ensures { IsTrue result ↔ ((p : List ℕ) × (ts : List TermTree) × (formula_tree formula.now ≡ atom p ts)) }
{
    matches!(formula, Formula::Atom(_, _))
}
