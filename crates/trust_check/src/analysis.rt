ghost use Rattle.std.specs.Prelude.{◌≡◌, map};
ghost use Rattle.nal_term.specs.Trees.{formula_tree};
ghost use Rattle.trust_check.specs.Reach.{IsAnswer, IsOutOfReach, assumptions_of};

use crate::answers::Trust;
use crate::valuation::Assumed;
use nal_term::{Formula, Name, Term};

/// Whether the labels let principals that are not trusted reach the goal by a proof, whatever these say.
///
/// `untrusted` lists them; with each, its subprincipals are not trusted. `loose` lists the predicates on which nobody is
/// relied, and `facts` the atoms that are taken as true. Under the valuation that these three give, `Label` comes exactly
/// where a label is false, and tells the lowest, counted from 1; else `Goal` exactly where the goal is true; else `Safe`.
/// `docs/LOGIC.md`, "What the untrusted can reach", states the valuation.
///
/// It is made for labels of the form `P says S` and for facts that are atoms, but says the same of any formulas: a fact
/// that is no atom changes nothing. It takes no memory.
pub fn trust(
    labels: &Vec<Formula>,
    untrusted: &Vec<Term>,
    loose: &Vec<Name>,
    facts: &Vec<Formula>,
    goal: &Formula,
) -> Trust
    ensures answer { IsAnswer (assumptions_of untrusted.now.items loose.now.items facts.now.items)
        (map formula_tree labels.now.items) (formula_tree goal.now) result }
    ensures safe { result ≡ Trust.Safe
        → IsOutOfReach (assumptions_of untrusted.now.items loose.now.items facts.now.items)
        (map formula_tree labels.now.items) (formula_tree goal.now) }
{
    let assumed = Assumed {
        untrusted: untrusted.as_slice(),
        loose: loose.as_slice(),
        facts: facts.as_slice(),
    };
    match assumed.first_false(labels.as_slice()) {
        Some(label) => Trust::Label { label },
        None if assumed.makes_true(goal) => Trust::Goal,
        None => Trust::Safe,
    }
}
