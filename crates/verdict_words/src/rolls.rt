//! Sessions that have not begun, and take no memory each.
ghost use Rattle.std.specs.Prelude.{◌≡◌, ◌≢◌, ◌+◌, ◌-◌, ◌^◌, ◌<◌, ◌≤◌, [], ◌∷◌, length, All, IfNone, IfOk, IfSome, OnOk, false, true};
ghost use Rattle.verdict_words.specs.Values.{IsPass, enrolled, pass_of};

use crate::board::Board;
use crate::mark::Mark;
use crate::matter::Matter;
use crate::padded::Padded;
use crate::pass::Pass;
use crate::seat::BookSeat;
use crate::steps::Place;
use std::alloc::{AllocError, Global};
use std::collections::VecDeque;
use std::marker::Model;
use std::mem::size_of;

/// The seat of a session that has not begun. It has no bytes.
#[derive(Drop)]
pub(crate) struct Seed<M: Matter> {
    place: Place<M>,
    board: Mark<Board<M>>,
}

impl<M: Matter> Seed<M> {
    // The seat of a pass.
    fn of(pass: Pass<M>) -> Seed<M>
        ensures value { pass_of (result.board.value, result.place) pass.session ≡ pass }
        ensures holds { IsPass result.board.value result.place pass.session (length pass.seen) }
    {
        let Pass { place, board, .. } = pass;
        Seed { place, board }
    }
}

/// The right to begin sessions with numbers that follow one another. Contracts see it as the list of their passes, the one
/// with the lowest number first. All have seen the same history, so a list of any length has the bytes of an empty one.
#[derive(Drop)]
pub struct Roll<M: Matter> {
    seeds: VecDeque<Seed<M>>,
    first: u64,
    at: u64,
}

impl<M: Matter> Model for Roll<M> {
    ghost use Rattle.std.specs.Prelude.{List, map};
    ghost use Rattle.verdict_words.specs.Values.{IsRoll, PassValue, roll_of};

    ghost Value = { List (PassValue M.Entry M.Setting) };

    ghost view = { λ r. roll_of r.first (map (λ seed. (seed.board.value, seed.place)) r.seeds.items) };

    ghost invariant = { λ r. IsRoll r.first r.at (map (λ seed. (seed.board.value, seed.place)) r.seeds.items) };
}

impl<M: Matter> Roll<M> {
    /// Whether no session is left.
    pub fn is_empty(&self) -> bool
        ensures spent { result ≡ true → self.now ≡ [] }
        ensures left { result ≡ false → 0 < length self.now }
    {
        self.seeds.is_empty()
    }

    /// How many sessions are left.
    pub fn len(&self) -> u64
        ensures { result ≡ length self.now }
    {
        self.seeds.len() as u64
    }

    /// The pass of the session with the lowest number. It takes no memory.
    pub fn next(&mut self) -> Option<Pass<M>>
        ensures some { IfSome result (λ pass. self.old ≡ pass ∷ self.new) }
        ensures none { IfNone result ((self.old ≡ []) × (self.new ≡ [])) }
    {
        let Some(Seed { place, board }) = self.seeds.pop_front() else {
            return None;
        };
        let session = self.first;
        self.first += 1;
        Some(Pass {
            place,
            session,
            at: Padded::new(self.at),
            board,
        })
    }
}

impl<M: Matter> Board<M> {
    /// A roll of so many new sessions, each as `enter` would make it. The error is want of memory.
    pub fn enroll(
        &self,
        alloc: Global,
        seat: &mut BookSeat<M>,
        sessions: u64,
    ) -> Result<Roll<M>, AllocError>
        requires board { seat.old.board ≡ self.now }
        requires room { seat.old.next + sessions ≤ 2 ^ 64 - 1 }
        ensures roll { IfOk result (λ roll. roll
            ≡ enrolled self.now seat.old.next seat.old.entries seat.old.known sessions) }
        ensures unused { IfOk result (λ roll. All (λ pass. All (λ entry. M.session entry ≢ pass.session)
            seat.old.entries) roll) }
        ensures seat { OnOk result (seat.new ≡ record seat.old { next = seat.old.next + sessions }) }
        ensures kept { seat.new ≡ record seat.old { next = seat.new.next } }
    {
        // So the list takes no memory, whatever its length.
        let bytes = size_of::<Seed<M>>();
        prove!(bytes == 0);
        let first = seat.next;
        let at = seat.count;
        let mut seeds = VecDeque::with_capacity(alloc, sessions as usize)?;
        for _ in 0..sessions {
            seeds.push_back(Seed::of(self.enter(seat)))?;
        }
        Ok(Roll { seeds, first, at })
    }
}
