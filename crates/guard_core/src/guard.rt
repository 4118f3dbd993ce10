// The verdict on a case, with the answers that authorities give.
ghost use Rattle.std.specs.Prelude.{IfErr, IfOk};
ghost use Rattle.nal_rules.specs.Asking.{case_tree};
ghost use Rattle.authority_ask.specs.PanelCalls.{HasOnlyAsked, asked_since};
ghost use Rattle.guard_core.specs.Judging.{IsBrokenOff, IsJudged};

use crate::asking::ask_lines;
use crate::findings::{Finding, GuardError};
use authority_ask::Panel;
use nal_rules::{Case, Cause};
use proof_check::{CheckError, check, missing_label, unbound_line};
use std::alloc::Global;
use std::net::{Net, TcpListener, TcpStream};
use std::rt::Clock;

/// Judges a case, asking the authorities of its ask lines in their order, up to the first that does not say Yes, and
/// nobody where the case is decided without. `docs/LOGIC.md`, "Verdicts", says which cause is told where several apply.
///
/// The finding is the verdict on the case with the answers that were given in this call, and exactly the questions of the
/// case were asked of the panel, and nothing else. `Down` comes only where the panel failed in this call's ask for that
/// line: those before it were answered Yes. `Memory` comes before the first ask, or where the panel had none for an ask.
pub fn judge<P: Panel, R: Net<Listener = TcpListener, Stream = TcpStream> + Clock>(
    rt: &R,
    alloc: Global,
    case: &Case,
    panel: &mut P,
) -> Result<Finding, GuardError>
    ensures asked { HasOnlyAsked (P.history panel.old) (P.history panel.new) }
    ensures judged { IfOk result
        (λ finding. IsJudged (case_tree case.now) (asked_since (P.history panel.old) (P.history panel.new)) finding) }
    ensures broken_off { IfErr result
        (λ error. IsBrokenOff (case_tree case.now) (asked_since (P.history panel.old) (P.history panel.new)) error) }
{
    let Some(goal) = &case.goal else {
        return Ok(Finding::Denied(Cause::GoalUnset));
    };
    let Some(proof) = &case.proof else {
        return Ok(Finding::Denied(Cause::NoProof));
    };
    match check(alloc, proof, goal) {
        Ok(_) => {}
        Err(CheckError::Empty) => return Ok(Finding::Denied(Cause::NoProof)),
        Err(CheckError::Line { line, fault }) => {
            return Ok(Finding::Denied(Cause::Line { line, fault }));
        }
        Err(CheckError::Memory) => return Err(GuardError::Memory),
    }
    if let Some(line) = missing_label(proof, case.labels.as_slice()) {
        return Ok(Finding::Denied(Cause::LabelMissing { line }));
    }
    if let Some(line) = unbound_line(proof, case.bound.as_slice()) {
        return Ok(Finding::Denied(Cause::NotBound { line }));
    }
    ask_lines(rt, proof, case.bound.as_slice(), panel)
}
