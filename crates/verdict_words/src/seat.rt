//! What the owner of the history steps with.
ghost use Rattle.std.specs.Prelude.{◌≡◌};
ghost use Rattle.verdict_words.specs.Rule.{IsSeated};

use crate::board::Board;
use crate::mark::Mark;
use crate::matter::Matter;
use crate::steps::Place;
use std::marker::Model;

/// The right to let the history of a board grow. Contracts see the history, the number of the next session, which
/// session may publish, and the order of all atomic steps as far as the owner knows it.
#[derive(Drop)]
pub struct BookSeat<M: Matter> {
    pub(crate) place: Place<M>,
    pub(crate) next: u64,
    pub(crate) count: u64,
    pub(crate) board: Mark<Board<M>>,
}

impl<M: Matter> Model for BookSeat<M> {
    ghost use Rattle.verdict_words.specs.Values.{SeatValue, IsBookSeat, seen_of, turn_of, lag_of, raised_of, known_of};

    ghost Value = { SeatValue M.Entry M.Setting };

    ghost view = { λ s. record { board = s.board.value; entries = seen_of s.place.me.0; next = s.next; turn = turn_of s.place.me.0; lag = lag_of s.place.me.0; raised = raised_of s.place.me.0; known = known_of s.place.me.0 } };

    ghost invariant = { λ s. IsBookSeat M.session s.board.value s.place s.next s.count };
}

impl<M: Matter> BookSeat<M> {
    /// The number of the next session. All entries are of earlier sessions, and those that are new are of sessions that
    /// came with the board.
    pub fn next_session(&self) -> u64
        ensures next { result ≡ self.now.next }
        ensures seated { IsSeated M.session self.now.board.origin self.now.entries self.now.next self.now.turn }
    {
        self.next
    }
}
