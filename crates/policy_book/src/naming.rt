//! How a type is tied to one book.
use std::marker::Brand;

/// Names the book that stands under a lock: its board, the number of the next session, and what its sink had sent and how often
/// it had failed when the book was made. Nothing is known of a value under a lock but what its type says, so the type that
/// stands there has a parameter with this bound. The call that puts it there is made at `Brand`, and picks the names.
pub trait BookNaming {
    ghost use Rattle.std.specs.Prelude.{Option, List, ℕ};
    ghost use Rattle.policy_history.specs.declared.events.Entry.{Entry};
    ghost use Rattle.policy_history.specs.declared.heads.Head.{Head};
    ghost use Rattle.verdict_words.specs.Values.{Identity};

    /// The board, if one is named.
    ghost board: { Option (Identity Entry Head) };

    /// The number of the next session. No pass is made any more.
    ghost next: { ℕ };

    /// What the sink had sent.
    ghost start: { List ℕ };

    /// How often the sink had failed.
    ghost start_faults: { ℕ };
}

impl BookNaming for Brand {
    ghost use Rattle.std.specs.Prelude.{None, []};

    ghost board = { None };

    ghost next = { 0 };

    ghost start = { [] };

    ghost start_faults = { 0 };
}
