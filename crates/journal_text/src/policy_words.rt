ghost use Rattle.std.specs.Prelude.{◌≡◌, ◌≢◌, List, MatchOption, ℕ};
ghost use Rattle.policy_history.specs.PolicyLines.{spaced};
ghost use Rattle.journal_text.specs.Inner.PolicyReading.{IsUnspaced};

/// The word in front of the first space, and what follows the space. None exactly where there is no space.
pub fn split_word(text: &[u8]) -> Option<(&[u8], &[u8])>
    ensures { MatchOption result
        ((word : List ℕ) (rest : List ℕ) → text.now ≢ spaced word rest)
        (λ parts. (text.now ≡ spaced parts.0.now parts.1.now) × IsUnspaced parts.0.now) }
{
    let place = text.iter().position(|byte| *byte == b' ')?;
    Some((&text[..place], &text[place + 1..]))
}
