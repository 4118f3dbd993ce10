//! What the words of slots spell.
ghost use Rattle.std.specs.Prelude.{◌≡◌, ◌<◌, ◌≤◌, length};
ghost use Rattle.verdict_words.specs.Words.{IsHeld};

use crate::flags::{ALLOWED, case_place};
use std::alloc::{AllocError, Global};
use verdict_words::{Board, BookSeat, Held, Matter, Pass};

/// A subject matter in which each verdict is right.
struct Anything;

impl Matter for Anything {
    type Entry = u64;

    type Setting = ();

    ghost session = { λ e. e };

    ghost right = { λ _ _ _ _. Unit {0} };

    ghost touches = { λ _ _ _ _. Unit {0} };

    ghost home = { λ _ _ _. Unit {0} };

    ghost stays_right = { λ _ _ _ _ _ _ _ _ _ _. tt };

    ghost home_grows = { λ _ _ _ _ _. tt };
}

// Keeps a verdict of the case, and loads its slot.
fn slot_of(
    board: &Board<Anything>,
    pass: &mut Pass<Anything>,
    case: u64,
    at: u64,
    held: &Held,
) -> u64
    requires board { pass.old.board ≡ board.now }
    requires case { case < 4096 }
    requires at { at ≤ length pass.old.seen }
    requires held { IsHeld held.now }
    ensures { (pass.new.board ≡ pass.old.board) × (pass.new.seen ≡ pass.old.seen) }
{
    board.fill(pass, &case_place(case), at, held);
    board.word(1 + case)
}

// The words of the count, of a slot and of the regions of a board with nine entries; and what a slot holds behind each of three
// verdicts.
fn told_on(
    alloc: Global,
    board: &Board<Anything>,
    seat: &mut BookSeat<Anything>,
) -> Result<String, AllocError>
    requires board { seat.old.board ≡ board.now }
    requires entries { length seat.old.entries ≡ 9 }
    requires next { seat.old.next ≡ 2 }
{
    let mut pass = board.enter(seat);
    let words = [
        board.word(0),
        board.word(6),
        board.word(69_633),
        board.word(70_144),
    ];
    let wrong_line = Held {
        code: 4,
        line: 1,
        fault: 12,
    };
    let other_line = Held {
        code: 4,
        line: 2,
        fault: 5,
    };
    let slots = [
        slot_of(board, &mut pass, 0, 3, &wrong_line),
        slot_of(board, &mut pass, 5, 9, &other_line),
        slot_of(board, &mut pass, 5, 9, &ALLOWED),
    ];
    drop(pass);
    format!(in alloc; "{words:?} {slots:?}")
}

pub const SPELLED: &str = "[9, 0, 9, 9] [864713118687690755, 360327552613482505, 1099516870665]";

/// What the words of slots come to on a board with nine entries.
pub fn told(alloc: Global) -> Result<String, AllocError> {
    let entries = Vec::from_elem(alloc, 1u64, 9)?;
    let (board, mut seat) = Board::<Anything>::make(alloc, &(), &entries, 2)?;
    let told = told_on(alloc, &board, &mut seat);
    drop(seat);
    drop(board);
    told
}
