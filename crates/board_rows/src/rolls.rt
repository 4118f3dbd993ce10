//! Sessions that begin by a roll.
ghost use Rattle.std.specs.Prelude.{◌≡◌, [], None, All};

use crate::flags::{ALLOWED, Flag, Flags, case_place};
use std::alloc::{AllocError, Global};
use verdict_words::{Board, BookSeat, Pass, Roll};

// Meets two passes, each in a list of its own, and those of a roll. The session and the point of each of the two.
fn settled(
    alloc: Global,
    board: &Board<Flags>,
    seat: &mut BookSeat<Flags>,
    one: Pass<Flags>,
    two: Pass<Flags>,
    roll: Roll<Flags>,
) -> Result<[[u64; 2]; 2], AllocError>
    requires seat { seat.old.board ≡ board.now }
    requires passes { (one.board ≡ board.now) × (two.board ≡ board.now) }
    requires roll { All (λ pass. pass.board ≡ board.now) roll }
    ensures { (seat.new.board ≡ seat.old.board) × (seat.new.next ≡ seat.old.next) }
{
    let lists = Vec::from_array(
        alloc,
        [
            Vec::from_array(alloc, [one])?,
            Vec::from_array(alloc, [two])?,
        ],
    )?;
    let rolls = Vec::from_array(alloc, [roll])?;
    let lists = board.settle(seat, lists, rolls);
    let mut found = [[0u64; 2]; 2];
    for (slot, list) in found.iter_mut().zip(lists.as_slice()) {
        if let Some(pass) = list.as_slice().first() {
            *slot = [pass.session(), pass.at()];
        }
    }
    Ok(found)
}

/// Three sessions are enrolled, and two begin: the second finds what the first keeps. An entry of the first follows, and both
/// are met with the roll, which has the third. The numbers of both sessions, how many the roll has left then, and the next
/// number; what the second finds; the session and the point of each behind it all; and the same of a session that is new.
pub fn told(
    alloc: Global,
    board: &Board<Flags>,
    seat: &mut BookSeat<Flags>,
) -> Result<String, AllocError>
    requires { seat.old
        ≡ record { board = board.now; entries = []; next = 1; turn = 0; lag = []; raised = None; known = [] } }
{
    let mut roll = board.enroll(alloc, seat, 3)?;
    let Some(mut one) = roll.next() else {
        return Err(AllocError);
    };
    let Some(mut two) = roll.next() else {
        return Err(AllocError);
    };
    let begun = [
        one.session(),
        two.session(),
        roll.len(),
        seat.next_session(),
    ];
    board.fill(&mut one, &case_place(5), 0, &ALLOWED);
    let found = board.look(&mut two, &case_place(5));
    let one = board.meet(seat, one);
    board.raise(seat, 9);
    let flag = Flag {
        session: one.session(),
        flag: 9,
    };
    board.publish(seat, &flag);
    let met = settled(alloc, board, seat, one, two, roll)?;
    let new = board.enter(seat);
    let next = [new.session(), new.at()];
    drop(new);
    format!(in alloc; "{begun:?} {found:?} {met:?} {next:?}")
}
