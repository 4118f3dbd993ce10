ghost use Rattle.std.specs.Prelude.{◌≡◌, ◌↔◌, ◌+◌, ◌*◌, ◌<◌, ◌≤◌, None, IsTrue};
ghost use Rattle.nal_subst.specs.Substitution.{formula_with};
ghost use Rattle.nal_term.specs.Free.{occurs_in};
ghost use Rattle.nal_term.specs.Size.{node_count, term_node_count};
ghost use Rattle.nal_term.specs.Trees.{formula_tree, term_tree};

use nal_term::{Formula, Name, Steps, Term, free_in_counted};
use std::marker::Brand;
use std::sync::ledger::{Blank, Ledger};

/// Whether a variable of `t` is captured where `t` stands for each free `x` of the formula: a free `x`
/// stands below a quantifier over another variable, which occurs in `t`. It takes no memory.
pub fn is_captured(f: &Formula, x: &Name, t: &Term) -> bool
    ensures { IsTrue result ↔ (formula_with x.now (term_tree t.now) (formula_tree f.now) ≡ None) }
{
    is_captured_uncounted::<Brand>(f, x, t, Blank::new(1))
}

// The counted call, with a counter that nothing reads.
fn is_captured_uncounted<L: Ledger>(f: &Formula, x: &Name, t: &Term, blank: Blank) -> bool
    requires name { blank.name ≡ L.name }
    requires parts { blank.parts ≡ L.parts }
    requires some { 0 < blank.parts }
    ensures { IsTrue result ↔ (formula_with x.now (term_tree t.now) (formula_tree f.now) ≡ None) }
{
    let mut steps = Steps::<L>::start(blank);
    is_captured_counted(f, x, t, &mut steps)
}

/// As `is_captured`, with a step for each node of the formula or of `t` that it looks at.
#[tactic(auto, using(crate::proofs::Unchanged::under_other, crate::proofs::Counts::room))]
pub fn is_captured_counted<L: Ledger>(f: &Formula, x: &Name, t: &Term, steps: &mut Steps<L>) -> bool
    ensures value { IsTrue result ↔ (formula_with x.now (term_tree t.now) (formula_tree f.now) ≡ None) }
    ensures least { steps.old + 1 ≤ steps.new }
    ensures most { steps.new + 1
        ≤ steps.old + node_count (formula_tree f.now) * (1 + term_node_count (term_tree t.now)) }
{
    steps.tick();
    match f {
        Formula::And(g, h) | Formula::Or(g, h) | Formula::Implies(g, h) => {
            is_captured_counted(g, x, t, steps) || is_captured_counted(h, x, t, steps)
        }
        Formula::Forall(y, g) | Formula::Exists(y, g) => {
            if x.as_slice() == y.as_slice() {
                false
            } else if occurs(t, y, steps) {
                free_in_counted(g, x, steps)
            } else {
                is_captured_counted(g, x, t, steps)
            }
        }
        Formula::Says(_, g) => is_captured_counted(g, x, t, steps),
        Formula::True | Formula::False => false,
        Formula::Atom(_, _) | Formula::Test(_, _, _) => false,
        Formula::SpeaksFor(_, _) | Formula::SpeaksForOn(_, _, _) => false,
    }
}

/// Whether the variable occurs in the term.
pub fn occurs<L: Ledger>(t: &Term, x: &Name, steps: &mut Steps<L>) -> bool
    ensures value { result ≡ occurs_in x.now (term_tree t.now) }
    ensures least { steps.old + 1 ≤ steps.new }
    ensures most { steps.new ≤ steps.old + term_node_count (term_tree t.now) }
{
    steps.tick();
    match t {
        Term::Number(_) | Term::Name(_) | Term::Text(_) => false,
        Term::Var(y) => x.as_slice() == y.as_slice(),
        Term::Sub(u, _) => occurs(u, x, steps),
    }
}
