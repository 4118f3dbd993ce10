//! What the case of a call has, and what was found of it.
ghost use Rattle.std.specs.Prelude.{◌≡◌, ◌≤◌, [], filter, length, true, false};
ghost use Rattle.nal_rules.specs.Asking.{case_tree, lines_of};
ghost use Rattle.nal_rules.specs.Faults.{is_ask};
ghost use Rattle.nal_rules.specs.Verdicts.{CaseTree};
ghost use Rattle.nal_rules.specs.declared.verdicts.Verdict.TheVariants.{Allowed as AllowedVerdict};
ghost use Rattle.policy_history.specs.Judged.{IsLasting};
ghost use Rattle.guard_core.specs.Judging.{HasCount, verdict_of};

use guard_core::Finding;
use nal_rules::{Case, Verdict};
use proof_lines::{Proof, Rule};

/// Tells that the proof of a case has at most 256 lines.
pub(crate) fn few_lines(case: &Case)
    ensures { length (lines_of (case_tree case.now)) ≤ 256 }
{
    match &case.proof {
        None => {}
        Some(proof) => {
            let _count = proof.count();
        }
    }
}

/// The verdict that a finding is.
pub(crate) fn verdict_of(finding: &Finding) -> Verdict
    ensures { result ≡ verdict_of finding.now }
{
    match finding {
        Finding::Allowed { .. } => Verdict::Allowed,
        Finding::Denied(cause) => Verdict::Denied(*cause),
    }
}

/// Whether an authority was asked and all said Yes.
pub(crate) fn has_asked(finding: &Finding) -> bool
    ensures asked { (c : CaseTree) → HasCount c finding.now → result ≡ true
        → ¬ IsLasting c (verdict_of finding.now) }
    ensures unasked { (c : CaseTree) → HasCount c finding.now → result ≡ false
        → verdict_of finding.now ≡ AllowedVerdict → filter is_ask (lines_of c) ≡ [] }
{
    match finding {
        Finding::Allowed { asks } => *asks > 0,
        Finding::Denied(_) => false,
    }
}

/// Whether the proof of a case has an ask line.
pub(crate) fn asks(case: &Case) -> bool {
    match &case.proof {
        None => false,
        Some(proof) => has_ask(proof),
    }
}

/// Whether a proof has an ask line.
fn has_ask(proof: &Proof) -> bool {
    for index in 0..proof.count() {
        let Some(line) = proof.line(index + 1) else {
            return false;
        };
        if matches!(line.rule, Rule::Ask) {
            return true;
        }
    }
    false
}
