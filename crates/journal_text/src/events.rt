ghost use Rattle.std.specs.Prelude.{◌↔◌, ◌≡◌, IfOk, IfSome, List, None, Ok, Option, option_map};
ghost use Rattle.nal_term.specs.Trees.{FormulaTree, TermTree, formula_tree, term_tree};
ghost use Rattle.nal_parse.specs.Grammar.{IsFormulaText, IsTermText};
ghost use Rattle.proof_lines.specs.Lines.{LineTree, line_trees};
ghost use Rattle.proof_text.specs.ProofText.{IsProofText};
ghost use Rattle.policy_history.specs.Events.{EventTree, event_tree};
ghost use Rattle.journal_text.specs.RequestEvents.{IsChange, IsEventOf, IsSpelled};

use nal_parse::{ParseError, parse_formula, parse_term};
use nal_term::{Formula, Term};
use policy_history::Event;
use proof_lines::Proof;
use proof_text::{ProofError, read_proof};
use session_wire::Request;
use std::alloc::{AllocError, Global};

/// The event that a request asks for, each text replaced by what it spells, or by None where it spells nothing. None
/// exactly for `Hello`, `Call` and `See`, and that takes no memory. `docs/FORMATS.md`, "Request lines", says which event each is.
pub fn event_of(alloc: Global, request: &Request) -> Result<Option<Event>, AllocError>
    ensures event { IfOk result (λ found. IfSome found (λ event. IsEventOf request.now (event_tree event))) }
    ensures only { IfOk result
        (λ found. IfSome found
        (λ event. (other : EventTree) → IsEventOf request.now other → other ≡ event_tree event)) }
    ensures none { (result ≡ Ok None) ↔ ¬ IsChange request.now }
{
    match request {
        Request::Hello { .. } | Request::Call { .. } | Request::See { .. } => Ok(None),
        Request::Say { principal, formula } => {
            let principal = spelled_term(alloc, principal.as_slice())?;
            let formula = spelled_formula(alloc, formula.as_slice())?;
            Ok(Some(Event::Say { principal, formula }))
        }
        Request::Transfer { number, to } => Ok(Some(Event::Transfer {
            number: *number,
            to: to.copy(alloc)?,
        })),
        Request::Delete { number } => Ok(Some(Event::Delete { number: *number })),
        Request::NewObject { name } => Ok(Some(Event::NewObject {
            name: name.copy(alloc)?,
        })),
        Request::SetGoal {
            op,
            object,
            formula,
        } => Ok(Some(Event::SetGoal {
            op: op.copy(alloc)?,
            object: object.copy(alloc)?,
            goal: spelled_formula(alloc, formula.as_slice())?,
        })),
        Request::ClearGoal { op, object } => Ok(Some(Event::ClearGoal {
            op: op.copy(alloc)?,
            object: object.copy(alloc)?,
        })),
        Request::SetProof { op, object, proof } => Ok(Some(Event::SetProof {
            op: op.copy(alloc)?,
            object: object.copy(alloc)?,
            proof: spelled_proof(alloc, proof.as_slice())?,
        })),
        Request::ClearProof { op, object } => Ok(Some(Event::ClearProof {
            op: op.copy(alloc)?,
            object: object.copy(alloc)?,
        })),
        Request::Bind { principal, port } => Ok(Some(Event::Bind {
            principal: spelled_term(alloc, principal.as_slice())?,
            port: *port,
        })),
        Request::Unbind { principal } => Ok(Some(Event::Unbind {
            principal: spelled_term(alloc, principal.as_slice())?,
        })),
    }
}

/// The term that the text spells, or None where it spells nothing. An `Err` is want of memory.
fn spelled_term(alloc: Global, text: &[u8]) -> Result<Option<Term>, AllocError>
    ensures spelled { IfOk result (λ found. IsSpelled IsTermText text.now (option_map term_tree found)) }
    ensures only { IfOk result
        (λ found. (other : Option (TermTree)) → IsSpelled IsTermText text.now other
        → other ≡ option_map term_tree found) }
{
    match parse_term(alloc, text) {
        Ok(term) => Ok(Some(term)),
        Err(ParseError::Memory) => Err(AllocError),
        Err(_) => Ok(None),
    }
}

/// The formula that the text spells, or None where it spells nothing. An `Err` is want of memory.
fn spelled_formula(alloc: Global, text: &[u8]) -> Result<Option<Formula>, AllocError>
    ensures spelled { IfOk result (λ found. IsSpelled IsFormulaText text.now (option_map formula_tree found)) }
    ensures only { IfOk result
        (λ found. (other : Option (FormulaTree)) → IsSpelled IsFormulaText text.now other
        → other ≡ option_map formula_tree found) }
{
    match parse_formula(alloc, text) {
        Ok(formula) => Ok(Some(formula)),
        Err(ParseError::Memory) => Err(AllocError),
        Err(_) => Ok(None),
    }
}

/// The proof that the text spells, or None where it spells nothing. An `Err` is want of memory.
fn spelled_proof(alloc: Global, text: &[u8]) -> Result<Option<Proof>, AllocError>
    ensures spelled { IfOk result (λ found. IsSpelled IsProofText text.now (option_map line_trees found)) }
    ensures only { IfOk result
        (λ found. (other : Option (List LineTree)) → IsSpelled IsProofText text.now other
        → other ≡ option_map line_trees found) }
{
    match read_proof(alloc, text) {
        Ok(proof) => Ok(Some(proof)),
        Err(ProofError::Memory) => Err(AllocError),
        Err(_) => Ok(None),
    }
}
