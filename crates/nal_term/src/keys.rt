//! Names, terms and formulas as the keys of maps: two are equal where their trees are, and equal ones are
//! hashed alike.
ghost use Rattle.std.specs.Prelude.{◌≡◌, ◌++◌, nat_eq, fold};
ghost use Rattle.std.specs.Cmp.{partial_equiv_from_equiv};
ghost use Rattle.std.specs.Cmp.Lexicographic.{pointwise, nat_list_eq_equiv};
ghost use Rattle.std.specs.Cmp.Rules.{hashing};
ghost use Rattle.std.specs.Hash as fed;
ghost use Rattle.std.proofs.Common.{rules};
ghost use Rattle.nal_term.specs.Trees.{term_tree, term_trees, formula_tree};
ghost use Rattle.nal_term.specs.TreeKeys.{compare_code, same_terms, same_formulas, term_writes, terms_writes, formula_writes, terms_equiv, formulas_equiv, same_terms-writes, same_formulas-writes};

use crate::formulas::{Compare, Formula, equal};
use crate::names::{Name, Text};
use crate::terms::{Term, equal_terms};
use std::hash::{Hash, Hasher};

impl PartialEq for Name {
    ghost eq = { pointwise nat_eq };

    ghost laws = { partial_equiv_from_equiv nat_list_eq_equiv };

    fn eq(&self, other: &Name) -> bool {
        self.as_slice() == other.as_slice()
    }
}

impl Eq for Name {
    ghost laws = { nat_list_eq_equiv };
}

impl Hash for Name {
    ghost hash_input = { fed.slice fed.u8 };

    ghost respects_eq = { Prim.search (hashing, rules) };

    fn hash<H: Hasher>(&self, state: &mut H) {
        self.as_slice().hash(state);
    }
}

impl PartialEq for Term {
    ghost eq = { λ t u. same_terms (term_tree t) (term_tree u) };

    ghost laws = { partial_equiv_from_equiv terms_equiv };

    fn eq(&self, other: &Term) -> bool {
        equal_terms(self, other)
    }
}

impl Eq for Term {
    ghost laws = { terms_equiv };
}

impl Hash for Term {
    ghost hash_input = { λ t. term_writes (term_tree t) };

    ghost respects_eq = { same_terms-writes };

    fn hash<H: Hasher>(&self, state: &mut H) {
        hash_term(self, state);
    }
}

impl PartialEq for Formula {
    ghost eq = { λ f g. same_formulas (formula_tree f) (formula_tree g) };

    ghost laws = { partial_equiv_from_equiv formulas_equiv };

    fn eq(&self, other: &Formula) -> bool {
        equal(self, other)
    }
}

impl Eq for Formula {
    ghost laws = { formulas_equiv };
}

impl Hash for Formula {
    ghost hash_input = { λ f. formula_writes (formula_tree f) };

    ghost respects_eq = { same_formulas-writes };

    fn hash<H: Hasher>(&self, state: &mut H) {
        hash_formula(self, state);
    }
}

fn hash_term<H: Hasher>(term: &Term, state: &mut H)
    ensures { state.new ≡ fold H.write state.old (term_writes (term_tree term.now)) }
{
    match term {
        Term::Number(n) => {
            state.write_u8(0);
            state.write_u64(*n);
        }
        Term::Name(x) => {
            state.write_u8(1);
            x.hash(state);
        }
        Term::Text(x) => {
            state.write_u8(2);
            x.as_slice().hash(state);
        }
        Term::Var(x) => {
            state.write_u8(3);
            x.hash(state);
        }
        Term::Sub(t, x) => {
            state.write_u8(4);
            hash_term(t, state);
            x.hash(state);
        }
    }
}

fn hash_terms<H: Hasher>(terms: &[Term], state: &mut H)
    ensures { state.new ≡ fold H.write state.old (terms_writes (term_trees terms.now)) }
{
    match terms.split_first() {
        None => {}
        Some((t, ts)) => {
            hash_term(t, state);
            hash_terms(ts, state);
        }
    }
}

fn hash_two_terms<H: Hasher>(t: &Term, u: &Term, kind: u8, state: &mut H)
    ensures { state.new
        ≡ fold H.write state.old (fed.u8 kind ++ term_writes (term_tree t.now) ++ term_writes (term_tree u.now)) }
{
    state.write_u8(kind);
    hash_term(t, state);
    hash_term(u, state);
}

const fn compare_code(compare: Compare) -> u8
    ensures { result ≡ compare_code compare }
{
    match compare {
        Compare::Equal => 0,
        Compare::Less => 1,
        Compare::AtMost => 2,
    }
}

fn hash_formula<H: Hasher>(formula: &Formula, state: &mut H)
    ensures { state.new ≡ fold H.write state.old (formula_writes (formula_tree formula.now)) }
{
    match formula {
        Formula::True => state.write_u8(0),
        Formula::False => state.write_u8(1),
        Formula::Atom(p, ts) => {
            state.write_u8(2);
            p.hash(state);

            // Else the terms that follow could be another atom's.
            state.write_usize(ts.as_slice().len());
            hash_terms(ts.as_slice(), state);
        }
        Formula::Test(c, t, u) => {
            state.write_u8(3);
            hash_two_terms(t, u, compare_code(*c), state);
        }
        Formula::And(f, g) => {
            state.write_u8(4);
            hash_formula(f, state);
            hash_formula(g, state);
        }
        Formula::Or(f, g) => {
            state.write_u8(5);
            hash_formula(f, state);
            hash_formula(g, state);
        }
        Formula::Implies(f, g) => {
            state.write_u8(6);
            hash_formula(f, state);
            hash_formula(g, state);
        }
        Formula::Forall(x, f) => {
            state.write_u8(7);
            x.hash(state);
            hash_formula(f, state);
        }
        Formula::Exists(x, f) => {
            state.write_u8(8);
            x.hash(state);
            hash_formula(f, state);
        }
        Formula::Says(t, f) => {
            state.write_u8(9);
            hash_term(t, state);
            hash_formula(f, state);
        }
        Formula::SpeaksFor(t, u) => hash_two_terms(t, u, 10, state),
        Formula::SpeaksForOn(t, u, s) => {
            hash_two_terms(t, u, 11, state);
            s.as_slice().hash(state);
        }
    }
}
