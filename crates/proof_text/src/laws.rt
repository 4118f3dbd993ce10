//! The laws of proofs' texts.
ghost use Rattle.proof_text.specs.Laws.{NoProofWithError, OneProof, OneProofError};

/// No text spells two proofs. The call does nothing.
pub fn texts_spell_one_proof()
    ensures { OneProof }
{}

/// A text has one error, and then it is not read as a proof. The call does nothing.
pub fn refused_texts_have_one_error()
    ensures one { OneProofError }
    ensures no_proof { NoProofWithError }
{}
