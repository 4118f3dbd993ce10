ghost use Rattle.std.specs.Prelude.{◌≢◌, ℕ, List, IfSome, IfNone, ◌≡◌, ◌↔◌, ◌+◌, ◌++◌, ◌∷◌, [], ◌<◌, ◌≤◌, length, IfOk, IsTrue, OnErr, OnOk, slice_get};
ghost use Rattle.std.specs.Option.{option_copied};
ghost use Rattle.nal_term.specs.Size.{term_list_node_count, term_node_count};
ghost use Rattle.nal_term.specs.Trees.{term_tree, term_trees, name};

use crate::names::{Name, Text};
use crate::steps::Steps;
use std::alloc::{AllocError, Global};
use std::marker::{Brand, Model};
use std::sync::ledger::{Blank, Ledger};

/// A term: what a principal, an argument of an atom, or a side of a comparison is.
/// `docs/LOGIC.md`, "Terms", says what each means.
pub enum Term {
    Number(u64),
    Name(Name),
    Text(Text),
    /// A variable by its name, which is written after a `?`.
    Var(Name),
    /// The subprincipal of a term that has this name, as in `fs.disk`.
    Sub(Box<Term>, Name),
}

const MOST: usize = 8;

/// The arguments of an atom: at most 8 terms, which contracts see as a list.
#[derive(Drop)]
pub struct Args {
    items: Vec<Term>,
}

impl Model for Args {
    ghost use Rattle.std.specs.Prelude.{List, ◌≤◌, length};
    ghost use Rattle.nal_term.specs.declared.terms.Term.{Term};
    ghost use Rattle.nal_term.specs.contracts.terms.Term as t;
    ghost use Rattle.std.specs.Coded.{codes};

    ghost Value = { List Term };

    ghost coded = { Prim.hlevel (codes, t.the_row.coded) };

    ghost view = { λ a. a.items.items };

    ghost invariant = { λ a. length a.items.items ≤ 8 };
}

/// Why a list of bounded length took no further item.
#[derive(Clone, Copy, Debug, PartialEq, Eq)]
pub enum ArgsError {
    /// The list has as many items as it may have.
    Full,
    /// There was no memory for the item.
    Memory,
}

impl Drop for Term {
    // Written out, so that a caller that lets a term go makes one call.
    fn drop(self) {
        match self {
            Term::Number(_) => {}
            Term::Name(_) | Term::Var(_) => {}
            Term::Text(_) => {}
            Term::Sub(_, _) => {}
        }
    }
}

impl Term {
    /// A copy of the term. An `Err` says that there was no memory for it.
    pub fn copy(&self, alloc: Global) -> Result<Term, AllocError>
        ensures { IfOk result (λ copy. term_tree copy ≡ term_tree self.now) }
    {
        match self {
            Term::Number(n) => Ok(Term::Number(*n)),
            Term::Name(x) => Ok(Term::Name(x.copy(alloc)?)),
            Term::Text(x) => Ok(Term::Text(x.copy(alloc)?)),
            Term::Var(x) => Ok(Term::Var(x.copy(alloc)?)),
            Term::Sub(t, x) => {
                let name = x.copy(alloc)?;
                Ok(Term::Sub(Box::new(alloc, t.copy(alloc)?)?, name))
            }
        }
    }

    /// The name that the term is. None exactly where it is no name; the term is then let go.
    pub fn into_name(self) -> Option<Name>
        ensures name { IfSome result (λ x. term_tree self ≡ name x) }
        ensures none { IfNone result ((x : List ℕ) → term_tree self ≢ name x) }
    {
        match self {
            Term::Name(name) => Some(name),
            Term::Number(_) => None,
            Term::Var(_) => None,
            Term::Text(_) => None,
            Term::Sub(_, _) => None,
        }
    }
}

impl Args {
    /// No arguments. It takes no memory.
    pub fn new(alloc: Global) -> Args
        ensures { result ≡ [] }
    {
        Args {
            items: Vec::new(alloc),
        }
    }

    /// A copy of the arguments. An `Err` says that there was no memory for it.
    pub fn copy(&self, alloc: Global) -> Result<Args, AllocError>
        ensures { IfOk result (λ copy. term_trees copy ≡ term_trees self.now) }
    {
        let mut items = Vec::new(alloc);
        for term in &self.items {
            items.push(term.copy(alloc)?)?;
        }
        Ok(Args { items })
    }

    /// Adds an argument at the end. `Full` exactly where there are 8; an `Err` changes nothing.
    pub fn push(&mut self, term: Term) -> Result<(), ArgsError>
        ensures ok { OnOk result (self.new ≡ self.old ++ term ∷ []) }
        ensures full { (result ≡ Err ArgsError.Full) ↔ (length self.old ≡ 8) }
        ensures err { OnErr result (self.new ≡ self.old) }
        ensures bound { length self.new ≤ 8 }
    {
        if self.items.len() == MOST {
            return Err(ArgsError::Full);
        }
        match self.items.push(term) {
            Ok(()) => Ok(()),
            Err(_) => Err(ArgsError::Memory),
        }
    }

    /// How many arguments there are: at most 8.
    pub fn count(&self) -> u64
        ensures count { result ≡ length self.now }
        ensures bound { result ≤ 8 }
    {
        self.items.len() as u64
    }

    /// The argument at a place, counted from 0. None exactly where there is none.
    pub fn get(&self, place: u64) -> Option<&Term>
        ensures { option_copied result ≡ slice_get self.now place }
    {
        if place < self.count() {
            Some(&self.items[place as usize])
        } else {
            None
        }
    }

    /// The arguments as a slice.
    pub fn as_slice(&self) -> &[Term]
        ensures items { result.now ≡ self.now }
        ensures bound { length result.now ≤ 8 }
    {
        self.items.as_slice()
    }
}

/// Whether two lists of terms have the same trees, one by one, and so the same length. It takes no
/// memory.
pub fn equal_term_lists(a: &[Term], b: &[Term]) -> bool
    ensures { IsTrue result ↔ (term_trees a.now ≡ term_trees b.now) }
{
    equal_term_lists_uncounted::<Brand>(a, b, Blank::new(1))
}

/// As `equal_term_lists`, with a step for each pair of nodes that it looks at, up to the first
/// difference.
pub fn equal_term_lists_counted<L: Ledger>(a: &[Term], b: &[Term], steps: &mut Steps<L>) -> bool
    ensures same { IsTrue result ↔ (term_trees a.now ≡ term_trees b.now) }
    ensures least { steps.old ≤ steps.new }
    ensures most { steps.new ≤ steps.old + term_list_node_count (term_trees a.now) }
    ensures all { IsTrue result → steps.new ≡ steps.old + term_list_node_count (term_trees a.now) }
{
    match (a.split_first(), b.split_first()) {
        (None, None) => true,
        (Some((t, ts)), Some((u, us))) => {
            equal_terms_counted(t, u, steps) && equal_term_lists_counted(ts, us, steps)
        }
        _ => false,
    }
}

// The counted call, with a counter that nothing reads.
fn equal_term_lists_uncounted<L: Ledger>(a: &[Term], b: &[Term], blank: Blank) -> bool
    requires name { blank.name ≡ L.name }
    requires parts { blank.parts ≡ L.parts }
    requires some { 0 < blank.parts }
    ensures { IsTrue result ↔ (term_trees a.now ≡ term_trees b.now) }
{
    let mut steps = Steps::<L>::start(blank);
    equal_term_lists_counted(a, b, &mut steps)
}

/// Whether two terms are the same tree. It takes no memory.
pub fn equal_terms(a: &Term, b: &Term) -> bool
    ensures { IsTrue result ↔ (term_tree a.now ≡ term_tree b.now) }
{
    equal_terms_uncounted::<Brand>(a, b, Blank::new(1))
}

/// As `equal_terms`, with a step for each pair of nodes that it looks at: first the pair itself, then
/// what is below it, up to the first difference.
pub fn equal_terms_counted<L: Ledger>(a: &Term, b: &Term, steps: &mut Steps<L>) -> bool
    ensures same { IsTrue result ↔ (term_tree a.now ≡ term_tree b.now) }
    ensures least { steps.old + 1 ≤ steps.new }
    ensures most { steps.new ≤ steps.old + term_node_count (term_tree a.now) }
    ensures all { IsTrue result → steps.new ≡ steps.old + term_node_count (term_tree a.now) }
{
    steps.tick();
    match (a, b) {
        (Term::Number(n), Term::Number(m)) => n == m,
        (Term::Name(x), Term::Name(y)) => x.as_slice() == y.as_slice(),
        (Term::Text(x), Term::Text(y)) => x.as_slice() == y.as_slice(),
        (Term::Var(x), Term::Var(y)) => x.as_slice() == y.as_slice(),
        (Term::Sub(t, x), Term::Sub(u, y)) => {
            x.as_slice() == y.as_slice() && equal_terms_counted(t, u, steps)
        }
        _ => false,
    }
}

// The counted call, with a counter that nothing reads.
fn equal_terms_uncounted<L: Ledger>(a: &Term, b: &Term, blank: Blank) -> bool
    requires name { blank.name ≡ L.name }
    requires parts { blank.parts ≡ L.parts }
    requires some { 0 < blank.parts }
    ensures { IsTrue result ↔ (term_tree a.now ≡ term_tree b.now) }
{
    let mut steps = Steps::<L>::start(blank);
    equal_terms_counted(a, b, &mut steps)
}
