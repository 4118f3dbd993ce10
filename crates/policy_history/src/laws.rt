//! The laws of the policy machine.
ghost use Rattle.policy_history.specs.Laws.{AcceptedElse, CaseNumbersStay, CasesNeverFull, CasesStay, FirstRefusal, LabelNumbers, ObjectsStay, PlainTests, ReplayIsByStep, RightStays};

/// An event is refused with the first refusal in their order that applies to it, and is accepted where none does; none is
/// refused for the number of cases, since the journal is full before; the tests of terms, formulas and proofs say what
/// they are named for. The call does nothing.
#[tactic(auto, using(crate::proofs::Bounds::cases_never_full, crate::proofs::FirstRefusals::accepted_else, crate::proofs::Limits::plain_tests))]
pub fn refusals_come_in_order()
    ensures first { FirstRefusal }
    ensures accepted { AcceptedElse }
    ensures cases { CasesNeverFull }
    ensures tests { PlainTests }
{}

/// The state after one more entry that is accepted is the one that its step gives. The call does nothing.
#[tactic(auto, using(crate::proofs::Soundness::replay_is_by_step))]
pub fn replay_goes_by_steps()
    ensures { ReplayIsByStep }
{}

/// Objects and cases keep their numbers, cases keep their subject, operation and object, and the number of a label is at
/// most the number of entries. The call does nothing.
#[tactic(auto, using(crate::proofs::Staying::objects_stay, crate::proofs::Staying::case_numbers_stay, crate::proofs::Staying::cases_stay, crate::proofs::Soundness::label_numbers))]
pub fn numbers_stay()
    ensures objects { ObjectsStay }
    ensures case_numbers { CaseNumbersStay }
    ensures cases { CasesStay }
    ensures labels { LabelNumbers }
{}

/// A verdict that rests on goal, proof and labels alone stays right while no entry touches the region of its case's
/// object or that of its subject. The call does nothing.
pub fn right_verdicts_stay()
    ensures { RightStays }
{}
