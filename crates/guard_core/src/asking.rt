// The asks that a proof needs, in the order of its ask lines.
ghost use Rattle.std.specs.Prelude.{◌≡◌, [], IfNone, IfSome, map};
ghost use Rattle.nal_term.specs.Trees.{FormulaTree, TermTree};
ghost use Rattle.proof_lines.specs.Lines.{line_trees};
ghost use Rattle.nal_rules.specs.Asking.{binding_tree};
ghost use Rattle.nal_rules.specs.Verdicts.{IsAskOf};
ghost use Rattle.authority_ask.specs.PanelCalls.{HasOnlyAsked, asked_since};
ghost use Rattle.guard_core.specs.Inner.Stages.{AreAskable, HaveAnswered};
ghost use Rattle.guard_core.specs.Judging.{IsAskedAt};

use crate::findings::{Finding, GuardError};
use authority_ask::{Ask, Panel};
use nal_rules::{Binding, Cause};
use proof_check::{port_of, question};
use proof_lines::Proof;
use std::net::{Net, TcpListener, TcpStream};
use std::rt::Clock;

/// Asks the ask lines of a proof in their order, up to the first that is not answered Yes.
pub fn ask_lines<P: Panel, R: Net<Listener = TcpListener, Stream = TcpStream> + Clock>(
    rt: &R,
    proof: &Proof,
    bound: &[Binding],
    panel: &mut P,
) -> Result<Finding, GuardError>
    requires askable { AreAskable (line_trees proof.now) (map binding_tree bound.now) }
    ensures asked { HasOnlyAsked (P.history panel.old) (P.history panel.new) }
    ensures answered { HaveAnswered (line_trees proof.now) (map binding_tree bound.now)
        (asked_since (P.history panel.old) (P.history panel.new)) result }
{
    let mut asks = 0;
    for index in 0..proof.count() {
        let line = index + 1;
        match ask_line(rt, proof, bound, line, panel) {
            None => {}
            Some(Ask::Yes) => asks += 1,
            Some(Ask::No) => return Ok(Finding::Denied(Cause::AuthorityNo { line })),
            Some(Ask::Down) => return Err(GuardError::Down { line }),
            Some(Ask::NoMemory) => return Err(GuardError::Memory),
        }
    }
    Ok(Finding::Allowed { asks })
}

/// Asks the line with this number. None exactly where it is no ask line, and then nothing is asked.
fn ask_line<P: Panel, R: Net<Listener = TcpListener, Stream = TcpStream> + Clock>(
    rt: &R,
    proof: &Proof,
    bound: &[Binding],
    number: u64,
    panel: &mut P,
) -> Option<Ask>
    requires askable { AreAskable (line_trees proof.now) (map binding_tree bound.now) }
    ensures none { IfNone result ((p : TermTree) (s : FormulaTree) → ¬ IsAskOf (line_trees proof.now) number p s) }
    ensures silent { IfNone result (asked_since (P.history panel.old) (P.history panel.new) ≡ []) }
    ensures told { IfSome result
        (λ answer. IsAskedAt (line_trees proof.now) (map binding_tree bound.now) number answer []
        (asked_since (P.history panel.old) (P.history panel.new))) }
    ensures asked { HasOnlyAsked (P.history panel.old) (P.history panel.new) }
{
    let (principal, statement) = question(proof, number)?;
    let Some(port) = port_of(bound, principal) else {
        // The principal of each ask line is bound.
        unreachable!()
    };
    Some(panel.ask(rt, port, statement))
}
