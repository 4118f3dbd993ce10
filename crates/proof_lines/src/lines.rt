ghost use Rattle.std.specs.Prelude.{◌≡◌, ◌≤◌, ◌<◌, ◌↔◌, length, IfOk, IfSome, IsNone, IsTrue, option_map, slice_get};
ghost use Rattle.std.specs.Option.{option_copied};
ghost use Rattle.nal_term.specs.Trees.{term_tree};
ghost use Rattle.proof_lines.specs.Lines.{HasRuleForm, line_tree};

use crate::rules::Rule;
use arrayvec::ArrayVec;
use nal_term::{Formula, Term};
use std::alloc::{AllocError, Global};
use std::marker::Model;

/// The references of a line: at most five numbers of lines, which contracts see as a list.
#[derive(Drop)]
pub struct Refs {
    numbers: ArrayVec<u64, 5>,
}

impl Model for Refs {
    ghost use Rattle.std.specs.Prelude.{List, ℕ, ◌≤◌, length};

    ghost Value = { List ℕ };

    ghost view = { λ r. r.numbers.items };

    ghost invariant = { λ r. length r.numbers.items ≤ 5 };
}

/// A line of a proof: what it concludes, by which rule, from which lines.
/// `docs/LOGIC.md`, "Rules", says what each part means.
#[derive(Drop)]
pub struct Line {
    pub rule: Rule,
    pub refs: Refs,
    pub term: Option<Term>,
    pub formula: Formula,
}

impl Refs {
    /// The references in their order. None exactly where there are more than five.
    pub fn of(refs: &[u64]) -> Option<Refs>
        ensures made { IfSome result (λ made. made ≡ refs.now) }
        ensures none { IsNone result ↔ (5 < length refs.now) }
    {
        let mut numbers = ArrayVec::new();
        match numbers.try_extend_from_slice(refs) {
            Ok(()) => Some(Refs { numbers }),
            Err(_) => None,
        }
    }

    /// How many references there are: at most five.
    pub fn count(&self) -> u64
        ensures count { result ≡ length self.now }
        ensures bound { result ≤ 5 }
    {
        self.as_slice().len() as u64
    }

    /// The reference at a place, counted from 0. None exactly where there is none.
    pub fn get(&self, place: u64) -> Option<&u64>
        ensures { option_copied result ≡ slice_get self.now place }
    {
        if place < self.count() {
            Some(&self.as_slice()[place as usize])
        } else {
            None
        }
    }

    /// A copy of the references. An `Err` says that there was no memory for it.
    pub fn copy(&self) -> Result<Refs, AllocError>
        ensures { IfOk result (λ copy. copy ≡ self.now) }
    {
        Ok(Refs {
            numbers: self.numbers.clone()?,
        })
    }

    /// The references as a slice.
    pub fn as_slice(&self) -> &[u64]
        ensures items { result.now ≡ self.now }
        ensures bound { length result.now ≤ 5 }
    {
        self.numbers.as_slice()
    }
}

impl Line {
    /// A copy of the line. An `Err` says that there was no memory for it.
    pub fn copy(&self, alloc: Global) -> Result<Line, AllocError>
        ensures { IfOk result (λ copy. line_tree copy ≡ line_tree self.now) }
    {
        Ok(Line {
            rule: self.rule,
            refs: self.refs.copy()?,
            term: copy_of_term(alloc, &self.term)?,
            formula: self.formula.copy(alloc)?,
        })
    }

    /// Whether the line has as many references as its rule, and a term exactly where its rule has one.
    pub fn has_rule_form(&self) -> bool
        ensures { IsTrue result ↔ HasRuleForm (line_tree self.now) }
    {
        self.refs.count() == self.rule.reference_count()
            && self.term.is_some() == self.rule.takes_term()
    }
}

/// A copy of the term, where there is one.
fn copy_of_term(alloc: Global, term: &Option<Term>) -> Result<Option<Term>, AllocError>
    ensures { IfOk result (λ copy. option_map term_tree copy ≡ option_map term_tree term.now) }
{
    match term {
        None => Ok(None),
        Some(term) => Ok(Some(term.copy(alloc)?)),
    }
}
