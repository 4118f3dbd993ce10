//! Verdicts as a board keeps them.
ghost use Rattle.policy_book.specs.Matter.{IsOfProof};

use crate::told::assert_none;
use nal_rules::{Cause, Fault, Verdict};
use policy_book::held_of;
use std::alloc::{AllocError, Global};

// Verdicts, and what is kept of each.
const TABLE: &str = "allowed -> Some(Held { code: 1, line: 0, fault: 0 })
goal unset -> Some(Held { code: 2, line: 0, fault: 0 })
no proof -> Some(Held { code: 3, line: 0, fault: 0 })
line 7 not goal -> Some(Held { code: 4, line: 7, fault: 12 })
label missing -> None
not bound -> None
authority no -> None";

fn verdict_of(name: &str) -> Verdict
    ensures { IsOfProof result }
{
    match name {
        "allowed" => Verdict::Allowed,
        "goal unset" => Verdict::Denied(Cause::GoalUnset),
        "no proof" => Verdict::Denied(Cause::NoProof),
        "line 7 not goal" => Verdict::Denied(Cause::Line {
            line: 7,
            fault: Fault::NotGoal,
        }),
        "label missing" => Verdict::Denied(Cause::LabelMissing { line: 1 }),
        "not bound" => Verdict::Denied(Cause::NotBound { line: 1 }),
        _ => Verdict::Denied(Cause::AuthorityNo { line: 1 }),
    }
}

// The first row that comes to something else, with what it comes to. Nothing where there is none.
fn first_other(alloc: Global, table: &str) -> Result<String, AllocError> {
    for row in table.lines() {
        let (name, wanted) = row.split_once(" -> ").unwrap_or((row, "?"));
        let held = held_of(&verdict_of(name));
        let told = format!(in alloc; "{held:?}")?;
        if told.as_str() != wanted {
            return format!(in alloc; "{name} -> {told}");
        }
    }
    Ok(String::new(alloc))
}

#[test]
fn what_rests_on_answers_is_not_kept(rt: HostRuntime) -> Result<(), AllocError> {
    assert_none(&rt, first_other(rt.alloc(), TABLE))
}
