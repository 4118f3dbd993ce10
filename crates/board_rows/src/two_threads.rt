//! Two sessions over one board, the seat of its book under a lock.
ghost use Rattle.std.specs.Prelude.{◌≡◌, ◌<◌, [], ◌∷◌, ◌++◌, length, Some, None, if◌then◌else◌};
ghost use Rattle.verdict_words.specs.Histories.{own};
ghost use Rattle.verdict_words.specs.Rule.{last_met};
ghost use Rattle.verdict_words.specs.Values.{met_seen};

use crate::flags::{ALLOWED, Flag, Flags, case_place};
use std::marker::{Brand, Model, PhantomData};
use std::process::Abort;
use std::sync::{Mutex, Wait};
use std::test::Fail;
use std::thread::{Threads, join};
use verdict_words::{Board, BookSeat, Look, Naming, Pass, Roll};

const MOST: u64 = 262_144;

/// What stands under the lock: the seat of the book. Contracts see the history. Its type says which board it is of, and
/// that between two calls nobody lags and no region is raised.
#[derive(Drop)]
pub struct Desk<N: Naming<Flag, ()>> {
    seat: BookSeat<Flags>,
    of: PhantomData<N>,
}

impl<N: Naming<Flag, ()>> Model for Desk<N> {
    ghost use Rattle.std.specs.Prelude.{◌≡◌, List, [], Some, None};
    ghost use Rattle.board_rows.specs.declared.flags.Flag.{Flag};

    ghost Value = { List Flag };

    ghost view = { λ d. d.seat.entries };

    ghost invariant = { λ d. (N.board ≡ Some d.seat.board) × (d.seat.next ≡ N.next) × (d.seat.lag ≡ []) × (d.seat.raised ≡ None) };
}

impl<N: Naming<Flag, ()>> Desk<N> {
    /// Raises a flag for the session of the pass, unless the history is full, and says whether it did.
    fn raise(&mut self, board: &Board<Flags>, pass: Pass<Flags>, flag: u64) -> (Pass<Flags>, bool)
        requires board { N.board ≡ Some board.now }
        requires pass { pass.board ≡ board.now }
        ensures pass { (result.0.board ≡ board.now) × (result.0.session ≡ pass.session) × (result.0.seen ≡ self.new)
            × (last_met result.0.trail ≡ length self.new) }
        ensures entry { self.new ≡ self.old
            ++ (if result.1 then record { session = pass.session; flag = flag } ∷ [] else []) }
        ensures own { own (λ e. e.session) self.new pass.session ≡ own (λ e. e.session) (met_seen pass) pass.session
            ++ (if result.1 then record { session = pass.session; flag = flag } ∷ [] else []) }
    {
        let pass = board.meet(&mut self.seat, pass);
        if pass.at() >= MOST {
            return (pass, false);
        }
        let flag = Flag {
            session: pass.session(),
            flag,
        };
        board.raise(&mut self.seat, flag.flag % 256);
        board.publish(&mut self.seat, &flag);
        (board.meet(&mut self.seat, pass), true)
    }
}

// One session of a thread: it raises a flag under the lock, and then looks at the flag's case and at another, without.
fn serve<N: Naming<Flag, ()>>(
    rt: &impl Wait,
    board: &Board<Flags>,
    desk: &Mutex<Desk<N>>,
    pass: Pass<Flags>,
    flag: u64,
) -> (Pass<Flags>, bool, Look, Look)
    requires board { N.board ≡ Some board.now }
    requires pass { (pass.board ≡ board.now) × (met_seen pass ≡ []) }
    requires flag { flag < 262144 }
    ensures pass { (result.0.board ≡ board.now) × (result.0.session ≡ pass.session) }
    ensures own { own (λ e. e.session) (met_seen result.0) pass.session
        ≡ (if result.1 then record { session = pass.session; flag = flag } ∷ [] else []) }
{
    let (mut pass, raised) = desk.lock(rt).raise(board, pass, flag);
    let touched = board.look(&mut pass, &case_place(flag));
    let other = board.look(&mut pass, &case_place(100));
    (pass, raised, touched, other)
}

// Two threads serve a session each. After they are joined both passes are met again: each has then seen the whole
// history, in which the entries of its session are those that its thread was told of.
fn serve_both<N: Naming<Flag, ()> + Send + Sync, R: Threads + Wait + Sync>(
    rt: &R,
    board: &Board<Flags>,
    seat: BookSeat<Flags>,
    one: Pass<Flags>,
    two: Pass<Flags>,
) -> (
    BookSeat<Flags>,
    (Pass<Flags>, bool, Look, Look),
    (Pass<Flags>, bool, Look, Look),
)
    requires board { N.board ≡ Some board.now }
    requires seat { (seat.board ≡ board.now) × (seat.next ≡ N.next) × (seat.lag ≡ []) × (seat.raised ≡ None) }
    requires one { (one.board ≡ board.now) × (met_seen one ≡ []) }
    requires two { (two.board ≡ board.now) × (met_seen two ≡ []) }
    ensures seen { (result.1.0.seen ≡ result.0.entries) × (result.2.0.seen ≡ result.0.entries) }
    ensures one { own (λ e. e.session) result.0.entries one.session
        ≡ (if result.1.1 then record { session = one.session; flag = 7 } ∷ [] else []) }
    ensures two { own (λ e. e.session) result.0.entries two.session
        ≡ (if result.2.1 then record { session = two.session; flag = 8 } ∷ [] else []) }
{
    let desk: Mutex<Desk<N>> = Mutex::new(Desk {
        seat,
        of: PhantomData,
    });
    let (one, two) = join(
        rt,
        || -> (Pass<Flags>, bool, Look, Look)
            requires { (N.board ≡ Some board.now) × (one.board ≡ board.now) × (met_seen one ≡ []) }
            ensures { (N.board ≡ Some result.0.board) × (result.0.session ≡ one.session)
                × (own (λ e. e.session) (met_seen result.0) one.session
                ≡ (if result.1 then record { session = one.session; flag = 7 } ∷ [] else [])) }
        { serve(rt, board, &desk, one, 7) },
        || -> (Pass<Flags>, bool, Look, Look)
            requires { (N.board ≡ Some board.now) × (two.board ≡ board.now) × (met_seen two ≡ []) }
            ensures { (N.board ≡ Some result.0.board) × (result.0.session ≡ two.session)
                × (own (λ e. e.session) (met_seen result.0) two.session
                ≡ (if result.1 then record { session = two.session; flag = 8 } ∷ [] else [])) }
        { serve(rt, board, &desk, two, 8) },
    );
    let Desk { mut seat, of: _ } = desk.into_inner();
    let one_pass = board.meet(&mut seat, one.0);
    let two_pass = board.meet(&mut seat, two.0);
    (
        seat,
        (one_pass, one.1, one.2, one.3),
        (two_pass, two.1, two.2, two.3),
    )
}

// What the two threads tell is the same under every schedule.
fn told<R: Threads + Wait + Abort + Sync>(
    rt: &R,
    board: &Board<Flags>,
    seat: BookSeat<Flags>,
    one: Pass<Flags>,
    two: Pass<Flags>,
)
    requires seat { (seat.board ≡ board.now) × (seat.lag ≡ []) × (seat.raised ≡ None) }
    requires one { (one.board ≡ board.now) × (met_seen one ≡ []) }
    requires two { (two.board ≡ board.now) × (met_seen two ≡ []) }
{
    let (seat, one, two) = serve_both::<Brand, R>(rt, board, seat, one, two);
    let are_told = is_told(&one) && is_told(&two);
    drop(one);
    drop(two);
    drop(seat);
    assert!(rt; are_told);
}

// The flag was raised, the pass has seen both, a look at the case of the flag misses, and one at another case hits.
fn is_told(served: &(Pass<Flags>, bool, Look, Look)) -> bool {
    let (pass, raised, touched, other) = served;
    *raised && pass.at() == 2 && *touched == Look::Miss && matches!(other, Look::Hit { .. })
}

#[test]
fn two_sessions_tell_the_same_under_every_schedule(rt: HostRuntime) -> Result<(), Fail> {
    let entries = Vec::new(rt.alloc());
    let (board, mut seat) = Board::<Flags>::make(rt.alloc(), &(), &entries, 1)?;
    let mut one = board.enter(&mut seat);
    let two = board.enter(&mut seat);
    board.fill(&mut one, &case_place(7), 0, &ALLOWED);
    board.fill(&mut one, &case_place(8), 0, &ALLOWED);
    board.fill(&mut one, &case_place(100), 0, &ALLOWED);
    told(&rt, &board, seat, one, two);
    drop(board);
    Ok(())
}

// The session that a roll begins first, or 0 where there is none.
fn first_of(roll: Roll<Flags>) -> u64 {
    let mut roll = roll;
    match roll.next() {
        Some(pass) => pass.session(),
        None => 0,
    }
}

#[test]
fn a_roll_is_handed_to_each_thread(rt: HostRuntime) -> Result<(), Fail> {
    let entries = Vec::new(rt.alloc());
    let (board, mut seat) = Board::<Flags>::make(rt.alloc(), &(), &entries, 1)?;
    let one = board.enroll(rt.alloc(), &mut seat, 4)?;
    let two = board.enroll(rt.alloc(), &mut seat, 4)?;
    let sessions = join(&rt, || first_of(one), || first_of(two));
    assert_eq!(rt; sessions, (1, 5));
    drop(seat);
    drop(board);
    Ok(())
}
