//! Laws of explanations.
ghost use Rattle.case_reasons.specs.Laws.{ExplainedAreRecorded, OneExplanation};

/// The record of a call that is explained at a point of a journal, with just the answers that were asked for, is right at that point
/// where it tells the verdict that the explanation does, and only then. The call does nothing.
pub fn explained_calls_are_recorded()
    ensures { ExplainedAreRecorded }
{}

/// A call has one explanation with these answers: whatever tells the verdict and where it comes from tells this. The call does nothing.
pub fn a_call_has_one_explanation()
    ensures { OneExplanation }
{}
