ghost use Rattle.answer_commands.specs.Laws.{OneOutcome};

/// A law: an input has one outcome. The call does nothing.
#[tactic(auto, using(crate::proofs::OneOutcome::one_outcome))]
pub fn an_input_has_one_outcome()
    ensures { OneOutcome }
{}
