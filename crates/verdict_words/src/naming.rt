//! How a type is tied to one board.
use std::marker::Brand;

/// Names one board, whose history is of `E` under a setting `H`. Nothing is known of a value under a lock but what its
/// type says, so a type that stands under a lock has a parameter with this bound, and its invariant says that its seat is
/// of the named board. The call that puts it there is made at `Brand`, and picks the name.
pub trait Naming<E, H> {
    ghost use Rattle.std.specs.Prelude.{Option, ℕ};
    ghost use Rattle.verdict_words.specs.Values.{Identity};

    /// The board, if one is named.
    ghost board: { Option (Identity E H) };

    /// The number of the next session. No pass is made any more.
    ghost next: { ℕ };
}

impl<E, H> Naming<E, H> for Brand {
    ghost use Rattle.std.specs.Prelude.{None};

    ghost board = { None };

    ghost next = { 0 };
}
