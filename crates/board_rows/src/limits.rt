//! Places and registers at their limits.
ghost use Rattle.std.specs.Prelude.{◌≡◌, [], None};

use crate::flags::{ALLOWED, Flags, case_place};
use std::alloc::{AllocError, Global};
use verdict_words::{Board, BookSeat, CasePlace, Look};

fn is_hit(look: Look) -> bool {
    matches!(look, Look::Hit { .. })
}

/// Verdicts of three cases are kept for the stores 0, 256 and 1. The first two of these stores share a region: once that is
/// raised for store 256, the verdict of store 0 misses too, and that of store 1 is found. Which are found before and
/// behind that, and the words around that of the region.
pub fn stores(
    alloc: Global,
    board: &Board<Flags>,
    seat: &mut BookSeat<Flags>,
) -> Result<String, AllocError>
    requires { seat.old
        ≡ record { board = board.now; entries = []; next = 1; turn = 0; lag = []; raised = None; known = [] } }
{
    let mut pass = board.enter(seat);
    let near = case_place(5);
    let far = CasePlace {
        case: 6,
        object: 6,
        store: 256,
    };
    let other = CasePlace {
        case: 7,
        object: 7,
        store: 1,
    };
    board.fill(&mut pass, &near, 0, &ALLOWED);
    board.fill(&mut pass, &far, 0, &ALLOWED);
    board.fill(&mut pass, &other, 0, &ALLOWED);
    let before = [
        is_hit(board.look(&mut pass, &near)),
        is_hit(board.look(&mut pass, &far)),
        is_hit(board.look(&mut pass, &other)),
    ];
    board.raise(seat, 256 + far.store % 256);
    let behind = [
        is_hit(board.look(&mut pass, &near)),
        is_hit(board.look(&mut pass, &far)),
        is_hit(board.look(&mut pass, &other)),
    ];
    drop(pass);
    let words = [board.word(69_888), board.word(69_889), board.word(69_890)];
    format!(in alloc; "{before:?} {behind:?} {words:?}")
}

/// A verdict of the last case is kept in the last slot, and is not told for another case of that slot. What is found of
/// both, and the words around the slot.
pub fn last_case(
    alloc: Global,
    board: &Board<Flags>,
    seat: &mut BookSeat<Flags>,
) -> Result<String, AllocError>
    requires { seat.old
        ≡ record { board = board.now; entries = []; next = 1; turn = 0; lag = []; raised = None; known = [] } }
{
    let mut pass = board.enter(seat);
    let last = CasePlace {
        case: 262_143,
        object: 65_535,
        store: 16_383,
    };
    board.fill(&mut pass, &last, 0, &ALLOWED);
    let found = board.look(&mut pass, &last);
    let other = board.look(&mut pass, &case_place(258_047));
    drop(pass);
    let words = [board.word(4095), board.word(4096), board.word(4097)];
    format!(in alloc; "{found:?} {other:?} {words:?}")
}

/// What two steps on the register of the last object answer, and the words around it.
pub fn last_register(
    alloc: Global,
    board: &Board<Flags>,
    seat: &mut BookSeat<Flags>,
) -> Result<String, AllocError>
    requires { seat.old
        ≡ record { board = board.now; entries = []; next = 1; turn = 0; lag = []; raised = None; known = [] } }
{
    let mut pass = board.enter(seat);
    let steps = [
        board.run_write(&mut pass, 65_535, 7),
        board.run_read(&mut pass, 65_535),
        board.run_read(&mut pass, 65_534),
    ];
    drop(pass);
    let words = [board.word(69_631), board.word(69_632), board.word(69_633)];
    format!(in alloc; "{steps:?} {words:?}")
}
