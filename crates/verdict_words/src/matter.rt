//! What a board is about.
ghost use Rattle.std.specs.Prelude.{ℕ, ◌≤◌, ◌+◌, List, ◌++◌, length, take};
ghost use Rattle.verdict_words.specs.declared.places.Held.{Held};
ghost use Rattle.verdict_words.specs.declared.places.CasePlace.{CasePlace};
ghost use Rattle.verdict_words.specs.Histories.{Untouched};
ghost use Rattle.verdict_words.specs.Words.{object_region, store_region};

/// A subject matter: a history of entries, cases with verdicts that depend on the history, and regions that say which
/// entries a verdict depends on. The board knows nothing else of what it is about.
pub trait Matter {
    /// What the history is a list of.
    type Entry;

    /// What all verdicts depend on beside the history. It never changes.
    type Setting;

    /// The number of the session that made an entry.
    ghost session: { Self.Entry → ℕ };

    /// The case with this number has this verdict after the history.
    ghost right: { Self.Setting → List Self.Entry → ℕ → Held → Type 0 };

    /// The entry, behind the history, touches the region with this number.
    ghost touches: { Self.Setting → List Self.Entry → Self.Entry → ℕ → Type 0 };

    /// The place's case has the place's object and subject.
    ghost home: { Self.Setting → List Self.Entry → CasePlace → Type 0 };

    /// A verdict stays right while no entry touches one of the two regions of its case.
    ghost stays_right: { (setting : Self.Setting) (history : List Self.Entry) (at : ℕ) (place : CasePlace) (held : Held) → home setting history place → at ≤ length history → right setting (take at history) place.case held → Untouched (touches setting) history at (object_region place.object) → Untouched (touches setting) history at (store_region place.store) → right setting history place.case held };

    /// What a case is about does not change as the history grows.
    ghost home_grows: { (setting : Self.Setting) (history more : List Self.Entry) (place : CasePlace) → home setting history place → home setting (history ++ more) place };
}
