ghost use Rattle.std.specs.Prelude.{◌≡◌, ◌↔◌, ◌+◌, ◌≤◌, IsTrue};
ghost use Rattle.nal_term.specs.Size.{node_count, term_node_count};
ghost use Rattle.nal_term.specs.Trees.{formula_tree, term_tree};

use nal_term::{Formula, Steps, Term, equal_counted, equal_terms_counted};
use std::sync::ledger::Ledger;

/// Whether the first two terms are the same, and the last two.
pub fn are_same_two<L: Ledger>(a: &Term, b: &Term, c: &Term, d: &Term, steps: &mut Steps<L>) -> bool
    ensures same { IsTrue result
        ↔ ((term_tree a.now ≡ term_tree b.now) × (term_tree c.now ≡ term_tree d.now)) }
    ensures least { steps.old ≤ steps.new }
    ensures most { steps.new ≤ steps.old + term_node_count (term_tree a.now) + term_node_count (term_tree c.now) }
{
    equal_terms_counted(a, b, steps) && equal_terms_counted(c, d, steps)
}

/// The same of three pairs of terms.
pub fn are_same_three<L: Ledger>(
    a: &Term,
    b: &Term,
    c: &Term,
    d: &Term,
    e: &Term,
    f: &Term,
    steps: &mut Steps<L>,
) -> bool
    ensures same { IsTrue result
        ↔ (((term_tree a.now ≡ term_tree b.now) × (term_tree c.now ≡ term_tree d.now))
        × (term_tree e.now ≡ term_tree f.now)) }
    ensures least { steps.old ≤ steps.new }
    ensures most { steps.new
        ≤ steps.old + term_node_count (term_tree a.now) + term_node_count (term_tree c.now) + term_node_count
        (term_tree e.now) }
{
    are_same_two(a, b, c, d, steps) && equal_terms_counted(e, f, steps)
}

/// The same of two pairs of terms and one of formulas.
pub fn are_same_said<L: Ledger>(
    p: &Term,
    q: &Term,
    r: &Term,
    s: &Term,
    f: &Formula,
    g: &Formula,
    steps: &mut Steps<L>,
) -> bool
    ensures same { IsTrue result
        ↔ (((term_tree p.now ≡ term_tree q.now) × (term_tree r.now ≡ term_tree s.now))
        × (formula_tree f.now ≡ formula_tree g.now)) }
    ensures least { steps.old ≤ steps.new }
    ensures most { steps.new
        ≤ steps.old + term_node_count (term_tree p.now) + term_node_count (term_tree r.now) + node_count
        (formula_tree f.now) }
{
    are_same_two(p, q, r, s, steps) && equal_counted(f, g, steps)
}
