//! What the board of the policy is about.
use policy_history::{Entry, Head};
use verdict_words::Matter;

/// The subject matter: the history is that of the accepted changes, the setting is the head of the policy, and a case has
/// the verdicts that rest on its goal, its proof and its subject's labels alone. `docs/ARCHITECTURE.md`, "The book", says what
/// that is for.
pub struct NalMatter;

impl Matter for NalMatter {
    ghost use Rattle.policy_history.specs.Events.{entry_tree};
    ghost use Rattle.policy_history.specs.Judged.{IsHome, Touches};
    ghost use Rattle.policy_history.specs.Values.{entry_trees};
    ghost use Rattle.policy_book.specs.Matter.{IsHeldRight};
    ghost use Rattle.policy_book.specs.Inner.Staying.{stays_right, home_grows};

    type Entry = Entry;

    type Setting = Head;

    ghost session = { λ e. e.session };

    ghost right = { λ head es case held. IsHeldRight head (entry_trees es) case held };

    ghost touches = { λ head es e region. Touches head (entry_trees es) (entry_tree e) region };

    ghost home = { λ head es place. IsHome head (entry_trees es) place.case place.object place.store };

    ghost stays_right = { stays_right };

    ghost home_grows = { home_grows };
}
