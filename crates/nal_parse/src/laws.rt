//! The laws of spellings.
ghost use Rattle.nal_parse.specs.Laws.{CanonicalFormula, CanonicalTerm, NoFormulaWithError, NoTermWithError, OneFormula, OneFormulaError, OneFormulaSpelled, OneTerm, OneTermError, OneTermSpelled};

/// No text spells two formulas, nor two terms. The call does nothing.
pub fn texts_spell_one_tree()
    ensures spelled_formulas { OneFormulaSpelled }
    ensures spelled_terms { OneTermSpelled }
    ensures formulas { OneFormula }
    ensures terms { OneTerm }
{}

/// The canonical text of what keeps the limits of its parts spells it. The call does nothing.
pub fn canonical_texts_spell()
    ensures formulas { CanonicalFormula }
    ensures terms { CanonicalTerm }
{}

/// A text has one error, and then it is not read as a formula, or as a term. The call does nothing.
pub fn refused_texts_have_one_error()
    ensures formulas { OneFormulaError }
    ensures no_formula { NoFormulaWithError }
    ensures terms { OneTermError }
    ensures no_term { NoTermWithError }
{}
