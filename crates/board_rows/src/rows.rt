//! Calls of sessions on a board of flags, and what they are answered, worked out by hand. Each row has a board of its own: the
//! board and its seat are owned by one function alone, since each way out of a function that owns them is proved.
ghost use Rattle.std.specs.Prelude.{◌≡◌, [], None};

use crate::flags::{ALLOWED, Flag, Flags, case_place};
use crate::{limits, rolls, slots};
use std::alloc::{AllocError, Global};
use std::process::Abort;
use verdict_words::{Board, BookSeat};

// A verdict of case 5 is found, also behind an entry of another region: the words 69642, 69638 and 69889 of regions, of the count,
// the point and the session. It is kept anew and found; and it misses once a verdict of another case has its slot.
fn entry(
    alloc: Global,
    board: &Board<Flags>,
    seat: &mut BookSeat<Flags>,
) -> Result<String, AllocError>
    requires { seat.old
        ≡ record { board = board.now; entries = []; next = 1; turn = 0; lag = []; raised = None; known = [] } }
{
    let mut pass = board.enter(seat);
    board.fill(&mut pass, &case_place(5), 0, &ALLOWED);
    let first = board.look(&mut pass, &case_place(5));
    let pass = board.meet(seat, pass);
    board.raise(seat, 9);
    let flag = Flag {
        session: pass.session(),
        flag: 9,
    };
    board.publish(seat, &flag);
    let mut pass = board.meet(seat, pass);
    let second = board.look(&mut pass, &case_place(5));
    let regions = [board.word(69_642), board.word(69_638), board.word(69_889)];
    let counts = [board.word(0), pass.at(), pass.session()];
    board.fill(&mut pass, &case_place(5), 1, &ALLOWED);
    let third = board.look(&mut pass, &case_place(5));
    board.fill(&mut pass, &case_place(4101), 1, &ALLOWED);
    let last = board.look(&mut pass, &case_place(5));
    drop(pass);
    let slot = board.word(6);
    format!(in alloc; "{first:?} {second:?} {regions:?} {counts:?} {third:?} {last:?} {slot}")
}

// The number of the session and of the next; what the steps on a register answer; and the words around it.
fn registers(
    alloc: Global,
    board: &Board<Flags>,
    seat: &mut BookSeat<Flags>,
) -> Result<String, AllocError>
    requires { seat.old
        ≡ record { board = board.now; entries = []; next = 1; turn = 0; lag = []; raised = None; known = [] } }
{
    let mut pass = board.enter(seat);
    let numbers = [pass.session(), seat.next_session()];
    let steps = [
        board.run_read(&mut pass, 3),
        board.run_write(&mut pass, 3, 7),
        board.run_add(&mut pass, 3, u64::MAX),
        board.run_add(&mut pass, 3, 2),
        board.run_read(&mut pass, 3),
        board.run_read(&mut pass, 65_535),
    ];
    drop(pass);
    let words = [board.word(4099), board.word(4100), board.word(4101)];
    format!(in alloc; "{numbers:?} {steps:?} {words:?}")
}

// A kept verdict is not told behind a change of another session, although the one that looks was not met since.
fn change(
    alloc: Global,
    board: &Board<Flags>,
    seat: &mut BookSeat<Flags>,
) -> Result<String, AllocError>
    requires { seat.old
        ≡ record { board = board.now; entries = []; next = 1; turn = 0; lag = []; raised = None; known = [] } }
{
    let mut one = board.enter(seat);
    let two = board.enter(seat);
    board.fill(&mut one, &case_place(5), 0, &ALLOWED);
    let before = board.look(&mut one, &case_place(5));
    let two = board.meet(seat, two);
    board.raise(seat, 5);
    let flag = Flag {
        session: two.session(),
        flag: 5,
    };
    board.publish(seat, &flag);
    drop(two);
    let behind = board.look(&mut one, &case_place(5));
    drop(one);
    format!(in alloc; "{before:?} {behind:?}")
}

// A session reads what another one wrote behind its own step.
fn reads(
    alloc: Global,
    board: &Board<Flags>,
    seat: &mut BookSeat<Flags>,
) -> Result<String, AllocError>
    requires { seat.old
        ≡ record { board = board.now; entries = []; next = 1; turn = 0; lag = []; raised = None; known = [] } }
{
    let mut one = board.enter(seat);
    let mut two = board.enter(seat);
    let steps = [
        board.run_write(&mut one, 3, 5),
        board.run_write(&mut two, 3, 9),
        board.run_read(&mut one, 3),
    ];
    drop(one);
    drop(two);
    format!(in alloc; "{steps:?}")
}

// What two steps answer, and then the session and the point of each pass, which are met together.
fn meetings(
    alloc: Global,
    board: &Board<Flags>,
    seat: &mut BookSeat<Flags>,
) -> Result<String, AllocError>
    requires { seat.old
        ≡ record { board = board.now; entries = []; next = 1; turn = 0; lag = []; raised = None; known = [] } }
{
    let mut one = board.enter(seat);
    let mut two = board.enter(seat);
    let steps = [
        board.run_add(&mut one, 3, 5),
        board.run_write(&mut two, 3, 9),
    ];
    let one = board.meet(seat, one);
    board.raise(seat, 9);
    let flag = Flag {
        session: 1,
        flag: 9,
    };
    board.publish(seat, &flag);
    let lists = Vec::from_array(alloc, [Vec::from_array(alloc, [one, two])?])?;
    let lists = board.settle(seat, lists, Vec::new(alloc));
    let mut found = [[0u64; 2]; 2];
    if let Some(passes) = lists.as_slice().first() {
        for (slot, pass) in found.iter_mut().zip(passes.as_slice()) {
            *slot = [pass.session(), pass.at()];
        }
    }
    drop(lists);
    format!(in alloc; "{steps:?} {found:?}")
}

fn told_on(
    alloc: Global,
    board: &Board<Flags>,
    seat: &mut BookSeat<Flags>,
    row: &str,
) -> Result<String, AllocError>
    requires { seat.old
        ≡ record { board = board.now; entries = []; next = 1; turn = 0; lag = []; raised = None; known = [] } }
{
    match row {
        "an entry makes only its own region miss" => entry(alloc, board, seat),
        "a register step answers what the register held" => registers(alloc, board, seat),
        "a look misses behind a change of another session" => change(alloc, board, seat),
        "a read is of the last step of any session" => reads(alloc, board, seat),
        "passes are met together" => meetings(alloc, board, seat),
        "sessions begin by a roll" => rolls::told(alloc, board, seat),
        "stores 256 apart share a region" => limits::stores(alloc, board, seat),
        "the last case has the last slot" => limits::last_case(alloc, board, seat),
        "the last object has the last register" => limits::last_register(alloc, board, seat),
        _ => Err(AllocError),
    }
}

// What a row comes to on a new board.
fn told(alloc: Global, row: &str) -> Result<String, AllocError> {
    let entries = Vec::new(alloc);
    let (board, mut seat) = Board::<Flags>::make(alloc, &(), &entries, 1)?;
    let told = told_on(alloc, &board, &mut seat, row);
    drop(seat);
    drop(board);
    told
}

const ROWS: &str = "an entry makes only its own region miss -> \
    Hit { at: 0, held: Held { code: 1, line: 0, fault: 0 } } Hit { at: 1, held: Held { code: 1, line: 0, fault: 0 } } [1, 0, 0] [1, 1, 1] \
    Hit { at: 1, held: Held { code: 1, line: 0, fault: 0 } } Miss 1103811837953
a register step answers what the register held -> [1, 2] [0, 0, 7, 6, 8, 0] [0, 8, 0]
a look misses behind a change of another session -> Hit { at: 0, held: Held { code: 1, line: 0, fault: 0 } } Miss
a read is of the last step of any session -> [0, 5, 9]
passes are met together -> [0, 5] [[1, 1], [2, 1]]
sessions begin by a roll -> [1, 2, 1, 4] Hit { at: 0, held: Held { code: 1, line: 0, fault: 0 } } [[1, 1], [2, 1]] [4, 1]
stores 256 apart share a region -> [true, true, true] [false, false, true] [0, 1, 0]
the last case has the last slot -> Hit { at: 0, held: Held { code: 1, line: 0, fault: 0 } } Miss [0, 1374388486144, 0]
the last object has the last register -> [0, 7, 0] [0, 7, 0]";

// The first row that comes to something else, with what it comes to. Nothing where there is none.
fn first_other(alloc: Global, rows: &str) -> Result<String, AllocError> {
    for row in rows.lines() {
        let (name, wanted) = row.split_once(" -> ").unwrap_or((row, "?"));
        let told = told(alloc, name)?;
        if told.as_str() != wanted {
            return format!(in alloc; "{name} -> {told}");
        }
    }
    Ok(String::new(alloc))
}

fn hold<R: Abort>(rt: &R, alloc: Global) -> Result<(), AllocError> {
    let other = first_other(alloc, ROWS)?;
    assert_eq!(rt; other.as_str(), "");
    let spelled = slots::told(alloc)?;
    assert_eq!(rt; spelled.as_str(), slots::SPELLED);
    Ok(())
}

#[test]
fn calls_on_a_board_are_answered_as_its_rows_say(rt: HostRuntime) -> Result<(), AllocError> {
    hold(&rt, rt.alloc())
}
