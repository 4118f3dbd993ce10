//! The laws of what is read.
ghost use Rattle.kept_policies.specs.Kept.{AskedEvents, FrontIsWritten, RecoveredBegins, RecoveredGrows, RecoveredIsWritten, SpelledFormulas, SpelledProofs, SpelledTerms};

/// What a text spells keeps the limits of its parts, so that its canonical text is read as it: terms, formulas, proofs, and the event
/// that a request of a frame asks for. The call does nothing. `docs/FORMATS.md`, "Canonical text".
pub fn spelled_values_are_spellable()
    ensures terms { SpelledTerms }
    ensures formulas { SpelledFormulas }
    ensures proofs { SpelledProofs }
    ensures events { AskedEvents }
{}

/// A policy that is read from the front of a text, or recovered from a text that may be cut, is one that the program writes, and reads
/// again as it was. Whatever follows what was written of a policy without its last line, what is recovered has the principals,
/// authorities and entries of that policy, and maybe others behind them; where the line of one more entry or the last line follows, or a
/// front of it, what is recovered has its head, and begins with its entries. The call does nothing. `docs/FORMATS.md`, "Policy text".
pub fn policies_that_are_read_are_written()
    ensures front { FrontIsWritten }
    ensures recovered { RecoveredIsWritten }
    ensures grows { RecoveredGrows }
    ensures begins { RecoveredBegins }
{}
