//! The words by which lines begin.
ghost use Rattle.std.specs.Prelude.{◌≡◌, ◌≢◌, ◌++◌, List, MatchOption, ℕ};
ghost use Rattle.trust_form.specs.Words.{word_text};

use text_lines::after_word;

/// What a line between the subject and the end tells.
#[derive(Clone, Copy, Debug, PartialEq, Eq)]
pub enum Word {
    Label,
    Untrusted,
    Loose,
    Fact,
    Goal,
}

/// The word of a line and what follows it. None exactly where the line begins with none.
pub fn word_of(line: &[u8]) -> Option<(Word, &[u8])>
    ensures { MatchOption result
        ((word : Word) (rest : List ℕ) → line.entry.now ≢ word_text word ++ rest)
        (λ found. line.entry.now ≡ word_text found.0 ++ found.1.now) }
{
    if let Some(rest) = after_word(line, "label ") {
        Some((Word::Label, rest))
    } else if let Some(rest) = after_word(line, "untrusted ") {
        Some((Word::Untrusted, rest))
    } else if let Some(rest) = after_word(line, "loose ") {
        Some((Word::Loose, rest))
    } else if let Some(rest) = after_word(line, "fact ") {
        Some((Word::Fact, rest))
    } else if let Some(rest) = after_word(line, "goal ") {
        Some((Word::Goal, rest))
    } else {
        None
    }
}
