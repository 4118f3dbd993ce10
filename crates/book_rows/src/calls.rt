//! How an operation on an object is judged, with the verdicts that the board keeps.
ghost use Rattle.std.specs.Prelude.{◌≡◌, ◌≤◌, ◌<◌, ℕ, Bool, IfSome, List, Option, Some, length};
ghost use Rattle.nal_rules.specs.Asking.{case_tree, lines_of};
ghost use Rattle.nal_rules.specs.Verdicts.{IsVerdict};
ghost use Rattle.guard_core.specs.Judging.{HasCount, verdict_of};
ghost use Rattle.policy_history.specs.Values.{entry_trees};
ghost use Rattle.policy_book.specs.Snaps.{IsSnap, IsSnapOf};
ghost use Rattle.book_rows.specs.Unasked.{IsUnasked};

use crate::told::Told;
use authority_ask::MemPanel;
use guard_core::{Finding, judge};
use nal_rules::{Case, Verdict};
use nal_term::Name;
use policy_book::{BookAccess, NalMatter, Snapped, held_of};
use std::alloc::Global;
use std::net::{Net, TcpListener, TcpStream};
use std::rt::Clock;
use verdict_words::{Board, CasePlace, Look, Pass};

pub fn name_of(alloc: Global, text: &str) -> Option<Name> {
    Name::of(alloc, text.as_bytes()).ok()
}

/// Tells a kept verdict of the case of an operation on an object, which are given by their names, or else judges it, and keeps the verdict where it rests on no answer.
pub fn call<B: BookAccess, R: Net<Listener = TcpListener, Stream = TcpStream> + Clock>(
    rt: &R,
    alloc: Global,
    book: &mut B,
    board: &Board<NalMatter>,
    pass: Pass<NalMatter>,
    principal: u32,
    names: &str,
) -> (Pass<NalMatter>, Told)
    requires board { B.board book.old ≡ board.now }
    requires principal { principal < length board.now.origin.setting.principals }
    requires pass { pass.board ≡ board.now }
    ensures pass { result.0.board ≡ board.now }
    ensures book { B.board book.new ≡ B.board book.old }
{
    let (op, object) = names.split_once(" ").unwrap_or(("", ""));
    match (name_of(alloc, op), name_of(alloc, object)) {
        (Some(op), Some(object)) => {
            call_named(rt, alloc, book, board, pass, principal, &op, &object)
        }
        _ => (pass, Told::NoMemory),
    }
}

fn call_named<B: BookAccess, R: Net<Listener = TcpListener, Stream = TcpStream> + Clock>(
    rt: &R,
    alloc: Global,
    book: &mut B,
    board: &Board<NalMatter>,
    pass: Pass<NalMatter>,
    principal: u32,
    op: &Name,
    object: &Name,
) -> (Pass<NalMatter>, Told)
    requires board { B.board book.old ≡ board.now }
    requires principal { principal < length board.now.origin.setting.principals }
    requires pass { pass.board ≡ board.now }
    ensures pass { result.0.board ≡ board.now }
    ensures book { B.board book.new ≡ B.board book.old }
{
    let (pass, kept) = look(alloc, book, board, pass, principal, op, object);
    match kept {
        Some(told) => (pass, told),
        None => judge_now(rt, alloc, book, board, pass, principal, op, object),
    }
}

// Looks for a kept verdict.
fn look<B: BookAccess>(
    alloc: Global,
    book: &mut B,
    board: &Board<NalMatter>,
    pass: Pass<NalMatter>,
    principal: u32,
    op: &Name,
    object: &Name,
) -> (Pass<NalMatter>, Option<Told>)
    requires board { B.board book.old ≡ board.now }
    requires principal { principal < length board.now.origin.setting.principals }
    requires pass { pass.board ≡ board.now }
    ensures pass { result.0.board ≡ board.now }
    ensures book { B.board book.new ≡ B.board book.old }
{
    let (pass, snapped) = book.snap(alloc, pass, principal, op, object);
    let mut pass = pass;
    let kept = kept_of(board, &mut pass, &snapped);
    (pass, kept)
}

// The kept verdict of a case that was snapped now, if there is one.
fn kept_of(board: &Board<NalMatter>, pass: &mut Pass<NalMatter>, snapped: &Snapped) -> Option<Told>
    requires board { pass.old.board ≡ board.now }
    requires snapped { (subject : ℕ) × (op object : List ℕ)
        × IsSnap board.now.origin.setting (entry_trees pass.old.seen) subject op object snapped.now }
    ensures { pass.new.board ≡ pass.old.board }
{
    let Snapped::Case {
        place: Some(place),
        ..
    } = snapped
    else {
        return None;
    };
    match board.look(pass, place) {
        Look::Miss => None,
        Look::Hit { at, held } => Some(Told::Kept { at, held }),
    }
}

// Judges a case as it is now.
fn judge_now<B: BookAccess, R: Net<Listener = TcpListener, Stream = TcpStream> + Clock>(
    rt: &R,
    alloc: Global,
    book: &mut B,
    board: &Board<NalMatter>,
    pass: Pass<NalMatter>,
    principal: u32,
    op: &Name,
    object: &Name,
) -> (Pass<NalMatter>, Told)
    requires board { B.board book.old ≡ board.now }
    requires principal { principal < length board.now.origin.setting.principals }
    requires pass { pass.board ≡ board.now }
    ensures pass { result.0.board ≡ board.now }
    ensures book { B.board book.new ≡ B.board book.old }
{
    let (pass, snapped) = book.snap(alloc, pass, principal, op, object);
    let mut pass = pass;
    let told = told_of(rt, alloc, board, &mut pass, &snapped);
    (pass, told)
}

// What is told of a case that was snapped now.
fn told_of<R: Net<Listener = TcpListener, Stream = TcpStream> + Clock>(
    rt: &R,
    alloc: Global,
    board: &Board<NalMatter>,
    pass: &mut Pass<NalMatter>,
    snapped: &Snapped,
) -> Told
    requires board { pass.old.board ≡ board.now }
    requires snapped { (subject : ℕ) × (op object : List ℕ)
        × IsSnap board.now.origin.setting (entry_trees pass.old.seen) subject op object snapped.now }
    ensures { pass.new.board ≡ pass.old.board }
{
    match snapped {
        Snapped::NoMemory => Told::NoMemory,
        Snapped::NoObject { at } => Told::NoObject { at: *at },
        Snapped::Case {
            at,
            case,
            place,
            ..
        } => judged(rt, alloc, board, pass, *at, case, place),
    }
}

// Judges a case that was snapped now, and keeps the verdict where it rests on no answer.
fn judged<R: Net<Listener = TcpListener, Stream = TcpStream> + Clock>(
    rt: &R,
    alloc: Global,
    board: &Board<NalMatter>,
    pass: &mut Pass<NalMatter>,
    at: u64,
    case: &Case,
    place: &Option<CasePlace>,
) -> Told
    requires board { pass.old.board ≡ board.now }
    requires snapped { (subject n : ℕ) × (op object : List ℕ)
        × IsSnapOf board.now.origin.setting (entry_trees pass.old.seen) subject op object at case.now place.now n }
    ensures { pass.new.board ≡ pass.old.board }
{
    let Some(finding) = finding_of(rt, alloc, case) else {
        return Told::NoMemory;
    };
    if let Some(place) = place {
        keep(board, pass, at, case, place, &finding);
    }
    Told::Judged { at, finding }
}

// What the guard finds of a case, where nobody answers. None is want of memory.
fn finding_of<R: Net<Listener = TcpListener, Stream = TcpStream> + Clock>(
    rt: &R,
    alloc: Global,
    case: &Case,
) -> Option<Finding>
    ensures judged { IfSome result
        (λ finding. (answers : List Bool) × IsVerdict (case_tree case.now) answers (verdict_of finding)) }
    ensures count { IfSome result (HasCount (case_tree case.now)) }
{
    let mut panel = MemPanel::new(alloc, &[], &[], &[]).ok()?;
    match judge(rt, alloc, case, &mut panel) {
        Ok(finding) => Some(finding),
        Err(_) => None,
    }
}

// Keeps a verdict of a case, where it rests on no answer.
fn keep(
    board: &Board<NalMatter>,
    pass: &mut Pass<NalMatter>,
    at: u64,
    case: &Case,
    place: &CasePlace,
    finding: &Finding,
)
    requires board { pass.old.board ≡ board.now }
    requires snapped { (subject n : ℕ) × (op object : List ℕ)
        × IsSnapOf board.now.origin.setting (entry_trees pass.old.seen) subject op object at case.now (Some place.now)
        n }
    requires judged { (answers : List Bool) × IsVerdict (case_tree case.now) answers (verdict_of finding.now) }
    requires count { HasCount (case_tree case.now) finding.now }
    ensures { pass.new.board ≡ pass.old.board }
{
    short(case);
    let Some(verdict) = unasked(finding) else {
        return;
    };
    if let Some(held) = held_of(&verdict) {
        board.fill(pass, place, at, &held);
    }
}

// A proof has at most 256 lines.
fn short(case: &Case)
    ensures { length (lines_of (case_tree case.now)) ≤ 256 }
{
    if let Some(proof) = &case.proof {
        let _count = proof.count();
    }
}

// The verdict, unless authorities were asked and all said Yes.
fn unasked(finding: &Finding) -> Option<Verdict>
    ensures { IfSome result (λ verdict. (verdict ≡ verdict_of finding.now) × IsUnasked finding.now) }
{
    match finding {
        Finding::Allowed { asks } => {
            if *asks == 0 {
                Some(Verdict::Allowed)
            } else {
                None
            }
        }
        Finding::Denied(cause) => Some(Verdict::Denied(*cause)),
    }
}
