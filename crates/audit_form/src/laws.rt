//! The law of right records.
ghost use Rattle.audit_form.specs.AuditLaws.{RightLinesAreAudited};

/// The lines of right records behind the text of a legal policy, as the program makes one, each of whose entries has a session:
/// they are audited, and all are right, in any order, and up to 65,536 of them. The call does nothing.
pub fn right_lines_are_audited()
    ensures { RightLinesAreAudited }
{}
