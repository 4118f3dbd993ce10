//! Laws of right records.
ghost use Rattle.audit_check.specs.Laws.{RightAllowedDerives, UnknownAnswers};

use proof_check::allowed_cases_derive;

/// What comes of answers that are not known, so that none have to be tried. The call does nothing.
pub fn unknown_answers_are_settled()
    ensures { UnknownAnswers }
{}

/// Where a recorded `Allowed` is right, the goal follows from the labels that were held and the statements that were affirmed.
/// The call does nothing.
pub fn right_allowed_records_derive()
    ensures { RightAllowedDerives }
{
    allowed_cases_derive();
}
