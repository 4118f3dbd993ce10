ghost use Rattle.nal_rules.specs.Laws.{Consistency, NoAtomFollows, OlderDerivationsStand, OlderProofsStand, OneFault, OneLowestFault, OneVerdict, Soundness, Weakening};

/// The law of weakening: what follows from labels and answers follows from more labels and more
/// answers. The call does nothing.
pub fn more_keeps_derivable()
    ensures { Weakening }
{}

/// The law of consistency: where each label and each answer is a statement of a principal, what follows
/// is true under the valuation that makes each statement, delegation and comparison true and each atom
/// false; so neither the false formula nor an atom follows. The call does nothing.
pub fn statements_are_consistent()
    ensures sound { Soundness }
    ensures no_falsehood { Consistency }
    ensures no_atom { NoAtomFollows }
{}

/// The law that what held under the older rules, whose scopes are of one name, holds under these: what
/// was derivable is, and a proof without a fault has none. The call does nothing.
pub fn older_rules_are_kept()
    ensures derivable { OlderDerivationsStand }
    ensures faultless { OlderProofsStand }
{}

/// A line has one fault, a proof one lowest fault, and a case one verdict. The call does nothing.
pub fn a_case_has_one_verdict()
    ensures fault { OneFault }
    ensures lowest_fault { OneLowestFault }
    ensures verdict { OneVerdict }
{}
