//! The proof of a chain.
ghost use Rattle.std.specs.Prelude.{◌≡◌, ◌≤◌, ◌<◌, ◌++◌, ◌∷◌, [], IfOk, List, OnOk, false, length, ℕ};
ghost use Rattle.nal_term.specs.Trees as tree;
ghost use Rattle.nal_term.specs.Trees.{FormulaTree, TermTree, formula_tree, subprincipal, term_tree};
ghost use Rattle.proof_lines.specs.Lines.{line_trees, reference_count, takes_term};
ghost use Rattle.chain_prover.specs.Chains as chains;
ghost use Rattle.chain_prover.specs.Chains.{line, step_lines};
ghost use Rattle.chain_prover.specs.Inner.Paths.{IsPath, IsProofAlong, delegation_tree, grant_step};

use crate::paths::{Lead, Path};
use nal_term::{Formula, Scope, Term};
use proof_lines::{Line, Proof, PushError, Refs, Rule};
use std::alloc::{AllocError, Global};

/// The proof of the chain along the path. An `Err` is want of memory.
pub fn proof_of(alloc: Global, path: &Path<'_>, statement: &Formula) -> Result<Proof, AllocError>
    requires { (labels : List FormulaTree) × (b : TermTree) × (n : ℕ)
        × IsPath labels (formula_tree statement.now) b path.now.nodes.items path.now.first n × (n < 256) }
    ensures { IfOk result
        (λ proof. (labels : List FormulaTree) (b : TermTree) (n : ℕ)
        → IsPath labels (formula_tree statement.now) b path.now.nodes.items path.now.first n
        → IsProofAlong labels (formula_tree statement.now) b (line_trees proof) n) }
{
    let mut proof = Proof::new(alloc);
    let mut place = path.first;
    let label = said(alloc, path.nodes[place].principal, statement)?;
    add(&mut proof, Rule::Label, &[], label)?;
    loop {
        let node = path.nodes[place];
        match node.lead {
            Lead::Goal => return Ok(proof),
            Lead::Grant { scope, next } => {
                let owner = path.nodes[next].principal;
                add_grant(alloc, &mut proof, node.principal, owner, scope, statement)?;
                place = next;
            }
            Lead::Part { next } => {
                let part = path.nodes[next].principal;
                add_part(alloc, &mut proof, node.principal, part, statement)?;
                place = next;
            }
        }
    }
}

/// Adds the lines by which the statement goes from the speaker to the owner, who lets it speak. An `Err` is want of
/// memory.
fn add_grant(
    alloc: Global,
    proof: &mut Proof,
    speaker: &Term,
    owner: &Term,
    scope: Option<&Scope>,
    statement: &Formula,
) -> Result<(), AllocError>
    requires { length proof.old ≤ 253 }
    ensures { OnOk result (line_trees proof.new ≡ line_trees proof.old
        ++ step_lines (formula_tree statement.now) (length proof.old) (term_tree speaker.now)
        (grant_step (term_tree owner.now) scope.entry)) }
{
    let last = proof.count();
    let (handoff, says) = match scope {
        None => (Rule::Handoff, Rule::SfE),
        Some(_) => (Rule::HandoffOn, Rule::SfOnE),
    };
    let delegation = delegation(alloc, speaker, owner, scope)?;
    add(proof, Rule::Label, &[], said(alloc, owner, &delegation)?)?;
    add(proof, handoff, &[last + 1], delegation)?;
    add(
        proof,
        says,
        &[last + 2, last],
        said(alloc, owner, statement)?,
    )
}

/// Adds the lines by which the statement goes from a principal to its subprincipal. An `Err` is want of memory.
fn add_part(
    alloc: Global,
    proof: &mut Proof,
    whole: &Term,
    part: &Term,
    statement: &Formula,
) -> Result<(), AllocError>
    requires { length proof.old ≤ 254 }
    ensures { OnOk result
        ((n : List ℕ) → term_tree part.now ≡ subprincipal (term_tree whole.now) n
        → line_trees proof.new ≡ line_trees proof.old
        ++ step_lines (formula_tree statement.now) (length proof.old) (term_tree whole.now) (chains.part n)) }
{
    let last = proof.count();
    let delegation = delegation(alloc, whole, part, None)?;
    add(proof, Rule::SfSub, &[], delegation)?;
    add(
        proof,
        Rule::SfE,
        &[last + 1, last],
        said(alloc, part, statement)?,
    )
}

/// Adds a line at the end. An `Err` is want of memory.
fn add(proof: &mut Proof, rule: Rule, refs: &[u64], formula: Formula) -> Result<(), AllocError>
    requires few { length refs.now ≤ 2 }
    requires count { length refs.now ≡ reference_count rule }
    requires term { takes_term rule ≡ false }
    requires room { length proof.old < 256 }
    ensures { OnOk result
        (line_trees proof.new ≡ line_trees proof.old ++ line rule refs.now (formula_tree formula) ∷ []) }
{
    let Some(refs) = Refs::of(refs) else {
        unreachable!()
    };
    let line = Line {
        rule,
        refs,
        term: None,
        formula,
    };
    match proof.push(line) {
        Ok(()) => Ok(()),
        Err(PushError::Memory) => Err(AllocError),
        Err(_) => unreachable!(),
    }
}

/// The formula that the speaker speaks for the owner.
fn delegation(
    alloc: Global,
    speaker: &Term,
    owner: &Term,
    scope: Option<&Scope>,
) -> Result<Formula, AllocError>
    ensures { IfOk result
        (λ f. formula_tree f ≡ delegation_tree (term_tree speaker.now) (term_tree owner.now) scope.entry) }
{
    let speaker = speaker.copy(alloc)?;
    let owner = owner.copy(alloc)?;
    match scope {
        None => Ok(Formula::SpeaksFor(speaker, owner)),
        Some(scope) => Ok(Formula::SpeaksForOn(speaker, owner, scope.copy(alloc)?)),
    }
}

/// The formula that the principal says the other formula.
fn said(alloc: Global, principal: &Term, formula: &Formula) -> Result<Formula, AllocError>
    ensures { IfOk result (λ f. formula_tree f ≡ tree.says (term_tree principal.now) (formula_tree formula.now)) }
{
    let principal = principal.copy(alloc)?;
    let formula = Box::new(alloc, formula.copy(alloc)?)?;
    Ok(Formula::Says(principal, formula))
}
