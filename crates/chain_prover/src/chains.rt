ghost use Rattle.std.specs.Prelude.{◌≡◌, ◌↔◌, [], All, Contains, IfOk, IfSome, None, map, ℕ};
ghost use Rattle.nal_term.specs.Free.{IsClosed};
ghost use Rattle.nal_term.specs.Trees.{formula_tree};
ghost use Rattle.proof_lines.specs.Lines.{line_trees};
ghost use Rattle.nal_rules.specs.Derivation.{Derives};
ghost use Rattle.nal_rules.specs.Faults.{IsFaultless, IsSays, formulas_where, is_label};
ghost use Rattle.chain_prover.specs.Answers.{HasNoChain, IsShortest};
ghost use Rattle.chain_prover.specs.Chains.{IsChainProof};

use crate::answers::ChainError;
use crate::facts::Facts;
use crate::lines::proof_of;
use crate::search::shortest_path;
use nal_term::Formula;
use proof_lines::Proof;
use std::alloc::Global;

/// A shortest proof of the goal by a chain of delegations from the labels. None exactly where there is no such chain;
/// `NotSays` exactly where the goal is not of the form `B says F`, and otherwise an `Err` is want of memory.
/// `docs/LOGIC.md`, "Chains of delegations", states what a chain is, and which proof it gives.
///
/// It is made for at most 256 closed labels of the form `P says S`. Of any others it says the same, but that no line of the
/// proof has a fault and that the goal follows: a label line has to be closed.
pub fn find_chain(
    alloc: Global,
    labels: &Vec<Formula>,
    goal: &Formula,
) -> Result<Option<Proof>, ChainError>
    ensures not_says { (result ≡ Err ChainError.NotSays) ↔ ¬ IsSays (formula_tree goal.now) }
    ensures none { IfOk result
        (λ found. found ≡ None → HasNoChain (map formula_tree labels.now.items) (formula_tree goal.now)) }
    ensures chain { IfOk result
        (λ found. IfSome found
        (λ proof. IsChainProof (map formula_tree labels.now.items) (formula_tree goal.now) (line_trees proof))) }
    ensures shortest { IfOk result
        (λ found. IfSome found
        (λ proof. IsShortest (map formula_tree labels.now.items) (formula_tree goal.now) (line_trees proof))) }
    ensures faultless { All IsClosed (map formula_tree labels.now.items)
        → IfOk result
        (λ found. IfSome found (λ proof. (k : ℕ) → IsFaultless (line_trees proof) (formula_tree goal.now) k)) }
    ensures derives { All IsClosed (map formula_tree labels.now.items)
        → IfOk result
        (λ found. IfSome found (λ _. Derives (map formula_tree labels.now.items) [] (formula_tree goal.now))) }
    ensures labels { IfOk result
        (λ found. IfSome found
        (λ proof. All (Contains (map formula_tree labels.now.items)) (formulas_where is_label (line_trees proof)))) }
{
    let Formula::Says(principal, statement) = goal else {
        return Err(ChainError::NotSays);
    };
    let facts = Facts::of(alloc, labels.as_slice(), statement)?;
    let Some(path) = shortest_path(alloc, &facts, principal)? else {
        return Ok(None);
    };
    Ok(Some(proof_of(alloc, &path, statement)?))
}
