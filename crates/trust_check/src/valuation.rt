//! The valuation by which trust is judged.
ghost use Rattle.std.specs.Prelude.{◌↔◌, Contains, IsTrue, MatchOption, map};
ghost use Rattle.std.specs.List.{All};
ghost use Rattle.nal_rules.specs.Verdicts.{IsLowest};
ghost use Rattle.nal_term.specs.Trees.{formula_tree, term_tree, term_trees};
ghost use Rattle.trust_check.specs.Reach.{IsFalseLabel};
ghost use Rattle.trust_check.specs.Valuation.{AreLoose, Holds, IsUntrusted};
ghost use Rattle.trust_check.specs.Inner.Assumed.{assumptions_in};

use nal_term::{Formula, Name, Term};

/// What an owner assumes of a policy's surroundings.
#[derive(Clone, Copy)]
pub struct Assumed<'a> {
    /// The principals that are not trusted, but for those below them.
    pub untrusted: &'a [Term],
    /// The predicates on which nobody is relied.
    pub loose: &'a [Name],
    /// The atoms that are taken as true.
    pub facts: &'a [Formula],
}

impl Assumed<'_> {
    /// Whether the formula is true. Each list is looked through once for each name, principal or atom that the formula
    /// asks about. It takes no memory. `docs/LOGIC.md`, "What the untrusted can reach", states the valuation.
    pub fn makes_true(&self, f: &Formula) -> bool
        ensures { IsTrue result ↔ Holds (assumptions_in self.now) (formula_tree f.now) }
    {
        match f {
            Formula::True | Formula::Test(_, _, _) => true,
            Formula::Forall(_, _) | Formula::Exists(_, _) => true,
            Formula::False => false,
            Formula::Atom(predicate, _) => self.is_loose(predicate) || self.is_fact(f),
            Formula::And(g, h) => self.makes_true(g) && self.makes_true(h),
            Formula::Or(g, h) => self.makes_true(g) || self.makes_true(h),
            Formula::Implies(g, h) => !self.makes_true(g) || self.makes_true(h),
            Formula::Says(p, g) => self.is_untrusted(p) || self.makes_true(g),
            Formula::SpeaksFor(p, q) => !self.is_untrusted(p) || self.is_untrusted(q),
            Formula::SpeaksForOn(p, q, scope) => {
                !self.is_untrusted(p) || self.is_untrusted(q) || self.are_loose(scope.as_slice())
            }
        }
    }

    /// The number of the first label that is not true, counted from 1.
    pub fn first_false(&self, labels: &[Formula]) -> Option<u64>
        ensures { MatchOption result
            (All (Holds (assumptions_in self.now)) (map formula_tree labels.now))
            (λ k. IsLowest (IsFalseLabel (assumptions_in self.now) (map formula_tree labels.now)) k) }
    {
        let mut number = 0u64;
        for label in labels {
            number += 1;
            if !self.makes_true(label) {
                return Some(number);
            }
        }
        None
    }

    /// Whether the principal is not trusted: it is listed, or it is below one that is not trusted.
    fn is_untrusted(&self, principal: &Term) -> bool
        ensures { IsTrue result ↔ IsUntrusted (assumptions_in self.now) (term_tree principal.now) }
    {
        self.is_listed(principal)
            || match principal {
                Term::Sub(above, _) => self.is_untrusted(above),
                _ => false,
            }
    }

    fn is_listed(&self, principal: &Term) -> bool
        ensures { IsTrue result ↔ Contains (term_trees self.now.untrusted.now) (term_tree principal.now) }
    {
        self.untrusted.contains(principal)
    }

    fn is_loose(&self, name: &Name) -> bool
        ensures { IsTrue result ↔ Contains self.now.loose.now name.now }
    {
        self.loose.contains(name)
    }

    fn are_loose(&self, names: &[Name]) -> bool
        ensures { IsTrue result ↔ AreLoose (assumptions_in self.now) names.now }
    {
        for name in names {
            if !self.is_loose(name) {
                return false;
            }
        }
        true
    }

    fn is_fact(&self, atom: &Formula) -> bool
        ensures { IsTrue result ↔ Contains (map formula_tree self.now.facts.now) (formula_tree atom.now) }
    {
        self.facts.contains(atom)
    }
}
