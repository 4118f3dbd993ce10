ghost use Rattle.proof_check.specs.Laws.{AllowedCasesDerive, FaultlessProofsDerive};

/// The law of proofs: where no line of a proof has a fault, the goal follows from the formulas of its
/// label lines and of its ask lines. It speaks of the definitions alone, and not of the checker. The
/// call does nothing.
pub fn faultless_proofs_derive()
    ensures { FaultlessProofsDerive }
{}

/// The law of allowed cases: where a case is allowed with some answers, its goal follows from its labels and from the
/// formulas of its ask lines, and all that was asked was answered Yes. The call does nothing.
pub fn allowed_cases_derive()
    ensures { AllowedCasesDerive }
{}
