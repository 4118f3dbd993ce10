//! The principals that labels name, by number.
ghost use Rattle.std.specs.Prelude.{◌≡◌, ◌≤◌, ◌+◌, ◌++◌, ◌↔◌, IfOk, IsTrue, List, MatchOption, OnOk, [], ℕ, length};
ghost use Rattle.std.specs.Borrow.{Bor};
ghost use Rattle.nal_term.specs.declared.terms.Term.{Term};
ghost use Rattle.nal_term.specs.Trees.{term_tree};
ghost use Rattle.chain_prover.specs.Inner.Numbers.{AreNumbered, IsNumber, size_of, with_one_more};

use nal_term::{Term, equal_terms, term_size};
use std::alloc::{AllocError, Global};
use std::collections::HashMap;

/// How many kinds of sizes are told apart: those with different remainders.
const SIZES: usize = 512;

/// Which principals are of one kind of size.
#[derive(Clone, Copy)]
pub enum OfSize {
    Nobody,
    /// This one alone, by its number.
    One(usize),
    Several,
}

/// The principals that labels name, each once. The number of one is its place.
#[derive(Drop)]
pub struct Principals<'a> {
    pub terms: Vec<&'a Term>,
    pub numbers: HashMap<&'a Term, usize>,
    /// Which of them have a size, by its kind. Most principals that have no number are told by their size alone, and one that
    /// could be one other alone is compared with it: that takes less than to look for it in the map.
    pub sizes: Vec<OfSize>,
}

impl<'a> Principals<'a> {
    /// None yet. An `Err` is want of memory.
    pub fn none(alloc: Global) -> Result<Principals<'a>, AllocError>
        ensures none { IfOk result (λ all. all.terms.items ≡ []) }
        ensures numbered { IfOk result (λ all. AreNumbered all.terms.items all.numbers all.sizes.items) }
    {
        let sizes = vec![in alloc; OfSize::Nobody; SIZES]?;
        Ok(Principals {
            terms: Vec::new(alloc),
            numbers: HashMap::new(alloc),
            sizes,
        })
    }

    /// How many there are.
    pub fn count(&self) -> usize
        ensures { result ≡ length self.now.terms.items }
    {
        self.terms.len()
    }

    /// The number of the principal, whose size is given. None exactly where it has none.
    pub fn find(&self, term: &'a Term, size: u64) -> Option<usize>
        requires numbered { AreNumbered self.now.terms.items self.now.numbers self.now.sizes.items }
        requires size { size ≡ size_of (term_tree term.now) }
        ensures { MatchOption result ((i : ℕ) → ¬ IsNumber self.now.terms.items i (term_tree term.now))
            (λ i. IsNumber self.now.terms.items i (term_tree term.now)) }
    {
        match self.sizes[size as usize % SIZES] {
            OfSize::Nobody => None,
            OfSize::One(number) if self.is_number(number, term) => Some(number),
            OfSize::One(_) => None,
            OfSize::Several => self.numbers.get(&term).copied(),
        }
    }

    /// Whether the number is that of the principal.
    fn is_number(&self, number: usize, term: &Term) -> bool
        ensures { IsTrue result ↔ IsNumber self.now.terms.items number (term_tree term.now) }
    {
        match self.terms.get(number) {
            Some(other) => equal_terms(other, term),
            None => false,
        }
    }

    /// The number of the principal, which has one from now on. An `Err` is want of memory.
    pub fn number(&mut self, term: &'a Term) -> Result<usize, AllocError>
        requires { AreNumbered self.old.terms.items self.old.numbers self.old.sizes.items }
        ensures numbered { OnOk result (AreNumbered self.new.terms.items self.new.numbers self.new.sizes.items) }
        ensures grows { OnOk result ((more : List (Bor Term)) × (self.new.terms.items ≡ self.old.terms.items ++ more)) }
        ensures one { OnOk result (length self.new.terms.items ≤ length self.old.terms.items + 1) }
        ensures number { IfOk result (λ i. IsNumber self.new.terms.items i (term_tree term.now)) }
    {
        if let Some(number) = self.numbers.get(&term) {
            return Ok(*number);
        }
        let number = self.count();
        self.terms.push(term)?;
        self.numbers.insert(term, number)?;
        let kind = term_size(term) as usize % SIZES;
        self.sizes[kind] = with_one_more(self.sizes[kind], number);
        Ok(number)
    }
}

/// Those of a size, and one more.
fn with_one_more(those: OfSize, number: usize) -> OfSize
    ensures { result ≡ with_one_more those number }
{
    match those {
        OfSize::Nobody => OfSize::One(number),
        _ => OfSize::Several,
    }
}
