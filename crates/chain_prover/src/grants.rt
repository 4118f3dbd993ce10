//! What labels let principals state.
ghost use Rattle.std.specs.Prelude.{◌≡◌, ◌↔◌, IsTrue, MatchOption};
ghost use Rattle.nal_term.specs.Trees.{TermTree, formula_tree, term_tree, says};
ghost use Rattle.nal_rules.specs.Scope.{IsInScope, IsNameOf};
ghost use Rattle.chain_prover.specs.Chains.{Step, next};
ghost use Rattle.chain_prover.specs.Inner.Paths.{Grants, grant_step};

use nal_term::{Formula, Scope, Term, equal_terms};

/// By a label another principal speaks for the one that says it.
#[derive(Clone, Copy)]
pub struct Grant<'a> {
    /// Who speaks.
    pub speaker: &'a Term,
    /// The names on which alone it speaks, if not on all.
    pub scope: Option<&'a Scope>,
}

/// What the delegation lets a principal state for this one, who says it.
pub fn granted<'a>(
    delegation: &'a Formula,
    principal: &Term,
    statement: &Formula,
) -> Option<Grant<'a>>
    ensures { MatchOption result
        ((x : TermTree) (s : Step) → next x s ≡ term_tree principal.now
        → ¬ Grants (formula_tree statement.now) (says (term_tree principal.now) (formula_tree delegation.now)) x s)
        (λ g. Grants (formula_tree statement.now) (says (term_tree principal.now) (formula_tree delegation.now))
        (term_tree g.speaker.now) (grant_step (term_tree principal.now) g.scope)) }
{
    match delegation {
        Formula::SpeaksFor(speaker, other) if equal_terms(other, principal) => Some(Grant {
            speaker,
            scope: None,
        }),
        Formula::SpeaksForOn(speaker, other, scope)
            if equal_terms(other, principal) && is_in_scope(scope, statement) => {
            Some(Grant {
                speaker,
                scope: Some(scope),
            })
        }
        _ => None,
    }
}

/// Whether the formula is in the scope: each atom in it by its predicate, each comparison by a side, and nothing else
/// but conjunctions, disjunctions and implications of these.
fn is_in_scope(scope: &Scope, f: &Formula) -> bool
    ensures { IsTrue result ↔ IsInScope scope.now (formula_tree f.now) }
{
    match f {
        Formula::Atom(predicate, _) => scope.holds(predicate),
        Formula::Test(_, t, u) => is_name_of(scope, t) || is_name_of(scope, u),
        Formula::And(g, h) | Formula::Or(g, h) | Formula::Implies(g, h) => {
            is_in_scope(scope, g) && is_in_scope(scope, h)
        }
        _ => false,
    }
}

fn is_name_of(scope: &Scope, term: &Term) -> bool
    ensures { IsTrue result ↔ IsNameOf scope.now (term_tree term.now) }
{
    match term {
        Term::Name(name) => scope.holds(name),
        _ => false,
    }
}
