//! Verdicts as a board keeps them.
ghost use Rattle.std.specs.Prelude.{IfNone, IfSome};
ghost use Rattle.policy_book.specs.Matter.{IsOfProof, StandsFor};
ghost use Rattle.verdict_words.specs.Words.{IsHeld};
ghost use Rattle.verdict_words.specs.declared.places.Held.{Held};

use nal_rules::{Verdict, cause_numbers};
use verdict_words::Held;

/// A verdict as a board keeps it. None exactly where nothing is kept of it: where a label is missing, a principal is not bound,
/// or an authority did not say Yes.
pub fn held_of(verdict: &Verdict) -> Option<Held>
    requires { IsOfProof verdict.now }
    ensures held { IfSome result (λ held. StandsFor verdict.now held × IsHeld held) }
    ensures none { IfNone result ((held : Held) → ¬ StandsFor verdict.now held) }
{
    match verdict {
        Verdict::Allowed => Some(Held {
            code: 1,
            line: 0,
            fault: 0,
        }),
        Verdict::Denied(cause) => {
            let (number, line, fault) = cause_numbers(cause);
            if number <= 3 {
                Some(Held {
                    code: number + 1,
                    line,
                    fault,
                })
            } else {
                None
            }
        }
    }
}
