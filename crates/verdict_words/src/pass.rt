//! What a session steps with.
ghost use Rattle.std.specs.Prelude.{◌≡◌, ◌≤◌, length};
ghost use Rattle.verdict_words.specs.Histories.{IsPrefix};
ghost use Rattle.verdict_words.specs.Words.{most_entries};

use crate::board::Board;
use crate::mark::Mark;
use crate::matter::Matter;
use crate::padded::Padded;
use crate::steps::Place;
use std::marker::Model;

/// A session's right to step on a board. Contracts see its session, the history that it has seen, its steps so far, and
/// the order of all atomic steps as far as it knows it.
#[derive(Drop)]
pub struct Pass<M: Matter> {
    pub(crate) place: Place<M>,
    pub(crate) session: u64,
    pub(crate) at: Padded,
    pub(crate) board: Mark<Board<M>>,
}

impl<M: Matter> Model for Pass<M> {
    ghost use Rattle.verdict_words.specs.Values.{PassValue, IsPass, board_of, seen_of, trail_of, known_of};

    ghost Value = { PassValue M.Entry M.Setting };

    ghost view = { λ p. record { board = board_of p.place.me.0 p.board.value; session = p.session; seen = seen_of p.place.me.0; trail = trail_of p.place.me.0; known = known_of p.place.me.0 } };

    ghost invariant = { λ p. IsPass p.board.value p.place p.session p.at.value };
}

impl<M: Matter> Pass<M> {
    /// The number of its session, which is at least 1, and at least the first number of its board.
    pub fn session(&self) -> u64
        ensures session { result ≡ self.now.session }
        ensures first { (1 ≤ result) × (self.now.board.origin.first ≤ result) }
    {
        self.session
    }

    /// The length of the history that it has seen, which begins with the history that its board was made with.
    pub fn at(&self) -> u64
        ensures length { result ≡ length self.now.seen }
        ensures begins { IsPrefix self.now.board.origin.opening self.now.seen }
        ensures most { result ≤ most_entries }
    {
        self.at.value
    }
}
