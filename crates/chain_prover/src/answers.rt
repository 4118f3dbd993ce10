use std::alloc::AllocError;

/// Why no answer was given.
#[derive(Clone, Copy, Debug, PartialEq, Eq)]
pub enum ChainError {
    /// The goal is not of the form `B says F`.
    NotSays,
    /// There was no memory for the search or for the proof.
    Memory,
}

impl From<AllocError> for ChainError {
    ghost use Rattle.std.specs.Prelude.{◌≡◌};
    ghost use Rattle.chain_prover.specs.declared.answers.ChainError.TheVariants.{Memory};

    ghost from_gives = { λ _ e. e ≡ Memory };

    fn from(_e: AllocError) -> ChainError {
        ChainError::Memory
    }
}
