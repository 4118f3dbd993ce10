//! What is spelled and closed, and whose it is.
ghost use Rattle.std.specs.Prelude.{◌≡◌, ◌∷◌, [], codes, option_map};
ghost use Rattle.nal_term.specs.Trees.{formula_tree, says, term_tree};
ghost use Rattle.nal_term.specs.Closed.{covers, covers_term};
ghost use Rattle.proof_lines.specs.Lines.{line_trees};
ghost use Rattle.policy_history.specs.Machine.{formula_fits, is_foreign, is_goal_formula, is_own, is_proof, is_stated, is_statement, label_fits, proof_fits, term_fits};

use nal_parse::fits_said;
use nal_term::{Formula, Name, Term, is_closed, is_closed_but, is_closed_term};
use proof_lines::Proof;

fn term_fits(term: &Term) -> bool
    ensures { result ≡ term_fits (term_tree term.now) }
{
    nal_parse::term_fits(term)
}

fn formula_fits(formula: &Formula) -> bool
    ensures { result ≡ formula_fits (formula_tree formula.now) }
{
    nal_parse::fits(formula)
}

fn proof_fits(proof: &Proof) -> bool
    ensures { result ≡ proof_fits (line_trees proof.now) }
{
    proof_text::proof_fits(proof)
}

/// Whether the term is spelled and closed.
pub fn is_stated(term: &Option<Term>) -> bool
    ensures { result ≡ is_stated (option_map term_tree term.now) }
{
    match term {
        None => false,
        Some(term) => term_fits(term) && has_no_variable(term),
    }
}

fn has_no_variable(term: &Term) -> bool
    ensures { result ≡ covers_term [] (term_tree term.now) }
{
    is_closed_term(term)
}

/// Whether the formula is spelled and closed.
pub fn is_statement(formula: &Option<Formula>) -> bool
    ensures { result ≡ is_statement (option_map formula_tree formula.now) }
{
    match formula {
        None => false,
        Some(formula) => formula_fits(formula) && has_no_free_variable(formula),
    }
}

fn has_no_free_variable(formula: &Formula) -> bool
    ensures { result ≡ covers [] (formula_tree formula.now) }
{
    is_closed(formula)
}

/// Whether the goal is spelled, and no variable but the subject's is free in it.
pub fn is_goal_formula(goal: &Option<Formula>, subject: &Name) -> bool
    requires { subject.now ≡ codes "subject" }
    ensures { result ≡ is_goal_formula (option_map formula_tree goal.now) }
{
    match goal {
        None => false,
        Some(goal) => formula_fits(goal) && is_of_subject(goal, subject),
    }
}

fn is_of_subject(goal: &Formula, subject: &Name) -> bool
    ensures { result ≡ covers (subject.now ∷ []) (formula_tree goal.now) }
{
    is_closed_but(goal, subject)
}

/// Whether the label that the principal says the formula is within the limits.
pub fn label_fits(principal: &Option<Term>, formula: &Option<Formula>) -> bool
    ensures { result ≡ label_fits (option_map term_tree principal.now) (option_map formula_tree formula.now) }
{
    match (principal, formula) {
        (Some(principal), Some(formula)) => said_fits(principal, formula),
        _ => false,
    }
}

fn said_fits(principal: &Term, formula: &Formula) -> bool
    ensures { result ≡ formula_fits (says (term_tree principal.now) (formula_tree formula.now)) }
{
    fits_said(principal, formula)
}

/// Whether the proof is spelled.
pub fn is_proof(proof: &Option<Proof>) -> bool
    ensures { result ≡ is_proof (option_map line_trees proof.now) }
{
    match proof {
        None => false,
        Some(proof) => proof_fits(proof),
    }
}

/// Whether the principal is spelled and closed, and is neither the caller nor a part of it.
pub fn is_foreign(caller: &Name, principal: &Option<Term>) -> bool
    ensures { result ≡ is_foreign caller.now (option_map term_tree principal.now) }
{
    match principal {
        None => false,
        Some(term) => is_stated(principal) && !is_own(caller, term),
    }
}

// Whether the term is the caller's name, or a part of the caller.
fn is_own(caller: &Name, term: &Term) -> bool
    ensures { result ≡ is_own caller.now (term_tree term.now) }
{
    match term {
        Term::Name(name) => caller == name,
        Term::Sub(whole, _) => is_own(caller, whole),
        Term::Number(_) | Term::Text(_) | Term::Var(_) => false,
    }
}
