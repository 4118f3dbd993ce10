//! A call in a session over the shared board.
ghost use Rattle.std.specs.Prelude.{◌≡◌, ◌≢◌, ◌≤◌, ◌<◌, ◌⊎◌, ℕ, List, [], ◌∷◌, length, true, false, Some, None, IfSome};
ghost use Rattle.nal_rules.specs.Asking.{case_tree};
ghost use Rattle.nal_rules.specs.declared.verdicts.Verdict.{Verdict};
ghost use Rattle.nal_rules.specs.declared.verdicts.Verdict.TheVariants.{Allowed as AllowedVerdict};
ghost use Rattle.policy_history.specs.Judged.{IsLasting};
ghost use Rattle.policy_history.specs.Values.{entry_trees};
ghost use Rattle.guard_core.specs.declared.findings.GuardError.TheVariants.{Down as DownError};
ghost use Rattle.guard_core.specs.Judging.{HasCount, IsBrokenOff, IsJudged, verdict_of};
ghost use Rattle.verdict_words.specs.declared.places.CasePlace.{CasePlace};
ghost use Rattle.verdict_words.specs.declared.places.Held.{Held};
ghost use Rattle.verdict_words.specs.Words.{IsPlace};
ghost use Rattle.policy_book.specs.Matter.{IsHeldRight, IsOfProof, StandsFor};
ghost use Rattle.authority_ask.specs.PanelCalls.{HasOnlyAsked, asked_since};
ghost use Rattle.authority_ask.specs.Panels.{Told};
ghost use Rattle.session_wire.specs.declared.requests.Request.TheVariants.{Call};
ghost use Rattle.policy_book.specs.Snaps.{IsSnapOf};
ghost use Rattle.policy_history.specs.declared.heads.Head.{Head};
ghost use Rattle.session_wire.specs.declared.replies.Reply.{Reply};
ghost use Rattle.audit_check.specs.declared.records.Recorded.{Recorded};
ghost use Rattle.audit_form.specs.ReplyRecords.{Records};
ghost use Rattle.session_core.specs.Records.{IsNoted, given_in};
ghost use Rattle.session_core.specs.Served.{AreCounted};
ghost use Rattle.session_core.specs.Calls.{verdict_reply};
ghost use Rattle.session_core.specs.declared.board_session.BoardSession.{BoardSession};
ghost use Rattle.session_core.specs.Inner.Boarding.{HasKept, HasRun, IsAdmitted, IsChecked, IsLooked, IsMissed, IsReady, IsReplyOf, IsTurn, head_of, trees_of, who_of};
ghost use Rattle.session_core.specs.Inner.Knowing.{knows_row};

use crate::answers::found_reply;
use crate::board_session::{Admitted, Beside, BoardSession, NOT_OPEN};
use crate::findings::{asks, few_lines, has_asked, verdict_of};
use crate::known::Room;
use crate::records::RecordKeeper;
use audit_check::{Recorded, answers_of};
use authority_ask::Panel;
use guard_core::{Finding, GuardError, judge};
use nal_rules::{Case, Verdict};
use nal_term::Name;
use nx_io::{Gate, Place, Sink};
use policy_book::{BookAccess, NalMatter, Snapped, held_of};
use session_wire::Reply;
use std::alloc::Global;
use std::net::{Net, TcpListener, TcpStream};
use std::rt::Clock;
use verdict_words::{Board, CasePlace, Held, Look, Pass};

/// The number of the refusal of a call of an object that is not there. `docs/FORMATS.md`, "Events and refusals", lists them.
const NO_SUCH_OBJECT: u64 = 8;
/// That of a call whose record could not be sent.
const NOT_RECORDED: u64 = 20;

/// A case as a snapshot gave it: its point in the history, its place, if it has a number, and its object's number.
#[derive(Drop)]
pub struct Taken {
    pub at: u64,
    pub case: Case,
    pub place: Option<CasePlace>,
    pub object: u64,
}

impl BoardSession {
    /// Answers a call. Its record is sent before its verdict is kept, before its step and before its reply: where it can't be sent, the
    /// call is refused, and so is every later one.
    pub fn call<
        B: BookAccess,
        G: Gate,
        P: Panel,
        C: Sink,
        R: Net<Listener = TcpListener, Stream = TcpStream> + Clock,
    >(
        self,
        rt: &R,
        alloc: Global,
        beside: &Beside<G>,
        book: &mut B,
        op: &Name,
        object: &Name,
        arg: u64,
        panel: &mut P,
        records: &mut RecordKeeper<C>,
    ) -> (BoardSession, Reply)
        requires named { B.board book.old ≡ beside.now.board.now }
        requires ready { IsReady beside.now.board.now self }
        ensures ready { IsReady beside.now.board.now result.0 }
        ensures turn { IsTurn self result.0 (asked_since (P.history panel.old) (P.history panel.new))
            (Call op.now object.now arg) result.1 }
        ensures asked { HasOnlyAsked (P.history panel.old) (P.history panel.new) }
        ensures noted { IsNoted (head_of self) (who_of self) (Call op.now object.now arg) result.1
            (asked_since (P.history panel.old) (P.history panel.new)) records.old records.new }
        ensures idle { records.old.broken ≡ true
            → (result.0 ≡ self) × (asked_since (P.history panel.old) (P.history panel.new) ≡ []) }
        ensures book { B.board book.new ≡ B.board book.old }
        ensures counted { AreCounted (B.unrecorded book.old) (B.unrecorded book.new)
            (Call op.now object.now arg ∷ []) (result.1 ∷ []) }
    {
        let Some(principal) = self.principal() else {
            let at = self.pass.at();
            let number = NOT_OPEN;
            return (self, Reply::Refused { at, number });
        };
        if records.is_broken() {
            let at = self.pass.at();
            let number = NOT_RECORDED;
            return (self, Reply::Refused { at, number });
        }
        let (session, found) = self.look(rt, beside, principal, op, object, arg, records);
        match found {
            Some(reply) => (session, reply),
            None => session.snap(
                rt, alloc, beside, book, principal, op, object, arg, panel, records,
            ),
        }
    }

    /// Looks for a kept verdict of a case that is known. None where the case is to be judged.
    fn look<G: Gate, C: Sink, R: Net<Listener = TcpListener, Stream = TcpStream> + Clock>(
        self,
        rt: &R,
        beside: &Beside<G>,
        principal: u32,
        op: &Name,
        object: &Name,
        arg: u64,
        records: &mut RecordKeeper<C>,
    ) -> (BoardSession, Option<Reply>)
        requires ready { IsReady beside.now.board.now self }
        requires who { who_of self ≡ Some principal }
        requires whole { records.old.broken ≡ false }
        ensures ready { IsReady beside.now.board.now result.0 }
        ensures looked { IsLooked principal op.now object.now arg self result.0 result.1 }
        ensures noted { IfSome result.1 (λ reply. IsNoted (head_of self) (Some principal)
            (Call op.now object.now arg) reply [] records.old records.new) }
        ensures unnoted { result.1 ≡ None → records.new ≡ records.old }
    {
        let Some(place) = self.known.find(op, object) else {
            return (self, None);
        };
        let BoardSession {
            pass,
            admitted,
            known,
        } = self;
        let mut pass = pass;
        match beside.board.look(&mut pass, &place) {
            Look::Hit { at, held } => {
                let told = kept_reply(at, &held);
                if !note(&admitted, op, object, &[], &told, records) {
                    let session = BoardSession {
                        pass,
                        admitted,
                        known,
                    };
                    let number = NOT_RECORDED;
                    return (session, Some(Reply::Refused { at, number }));
                }
                let reply = hit(beside.board, &mut pass, op, &place, arg, at, &held);
                let session = BoardSession {
                    pass,
                    admitted,
                    known,
                };
                (session, Some(reply))
            }
            Look::Miss => {
                let session = pass.session();
                beside.gate.at(rt, Place::Missed { session, principal });
                let session = BoardSession {
                    pass,
                    admitted,
                    known,
                };
                (session, None)
            }
        }
    }

    /// Takes a snapshot of the case from the book, and judges it. All memory for the call is taken before.
    fn snap<
        B: BookAccess,
        G: Gate,
        P: Panel,
        C: Sink,
        R: Net<Listener = TcpListener, Stream = TcpStream> + Clock,
    >(
        self,
        rt: &R,
        alloc: Global,
        beside: &Beside<G>,
        book: &mut B,
        principal: u32,
        op: &Name,
        object: &Name,
        arg: u64,
        panel: &mut P,
        records: &mut RecordKeeper<C>,
    ) -> (BoardSession, Reply)
        requires named { B.board book.old ≡ beside.now.board.now }
        requires ready { IsReady beside.now.board.now self }
        requires who { who_of self ≡ Some principal }
        requires whole { records.old.broken ≡ false }
        ensures ready { IsReady beside.now.board.now result.0 }
        ensures turn { (s : BoardSession) → who_of s ≡ Some principal → IsMissed principal op.now object.now s self
            → IsTurn s result.0 (asked_since (P.history panel.old) (P.history panel.new))
            (Call op.now object.now arg) result.1 }
        ensures asked { HasOnlyAsked (P.history panel.old) (P.history panel.new) }
        ensures noted { IsNoted (head_of self) (Some principal) (Call op.now object.now arg) result.1
            (asked_since (P.history panel.old) (P.history panel.new)) records.old records.new }
        ensures book { (B.board book.new ≡ B.board book.old) × (B.unrecorded book.new ≡ B.unrecorded book.old) }
    {
        let BoardSession {
            pass,
            admitted,
            known,
        } = self;
        let mut known = known;
        let Ok(room) = known.reserve(alloc, op, object) else {
            let session = BoardSession {
                pass,
                admitted,
                known,
            };
            return (session, Reply::NoMemory);
        };
        let (pass, snapped) = book.snap(alloc, pass, principal, op, object);
        let session = BoardSession {
            pass,
            admitted,
            known,
        };
        match snapped {
            Snapped::Case {
                at,
                case,
                place,
                object,
            } => {
                let taken = Taken {
                    at,
                    case,
                    place,
                    object,
                };
                session.judge(
                    rt, alloc, beside, principal, op, &taken, room, arg, panel, records,
                )
            }
            Snapped::NoObject { at } => session.find_none(op, object, at, records),
            Snapped::NoMemory => (session, Reply::NoMemory),
        }
    }

    /// Answers a call of an object that is not there.
    fn find_none<C: Sink>(
        self,
        op: &Name,
        object: &Name,
        at: u64,
        records: &mut RecordKeeper<C>,
    ) -> (BoardSession, Reply)
        requires who { (p : ℕ) × IsAdmitted (head_of self) p self.admitted }
        requires whole { records.old.broken ≡ false }
        ensures same { result.0 ≡ self }
        ensures reply { (result.1 ≡ Reply.Refused at 8) ⊎ (result.1 ≡ Reply.Refused at 20) }
        ensures noted { (p arg : ℕ) → IsAdmitted (head_of self) p self.admitted → IsNoted (head_of self) (Some p)
            (Call op.now object.now arg) result.1 [] records.old records.new }
    {
        let number = NO_SUCH_OBJECT;
        let told = Reply::Refused { at, number };
        if note(&self.admitted, op, object, &[], &told, records) {
            return (self, told);
        }
        let number = NOT_RECORDED;
        (self, Reply::Refused { at, number })
    }

    /// Judges the case of a snapshot.
    fn judge<
        G: Gate,
        P: Panel,
        C: Sink,
        R: Net<Listener = TcpListener, Stream = TcpStream> + Clock,
    >(
        self,
        rt: &R,
        alloc: Global,
        beside: &Beside<G>,
        principal: u32,
        op: &Name,
        taken: &Taken,
        room: Room,
        arg: u64,
        panel: &mut P,
        records: &mut RecordKeeper<C>,
    ) -> (BoardSession, Reply)
        requires board { self.pass.board ≡ beside.now.board.now }
        requires who { IsAdmitted (head_of self) principal self.admitted }
        requires snap { IsSnapOf (head_of self) (trees_of self) principal op.now room.object taken.now.at taken.now.case
            taken.now.place taken.now.object }
        requires op { room.op ≡ op.now }
        requires spare { 1 ≤ self.known.spare }
        requires known { knows_row self.known.rows op.now room.object ≡ true → taken.now.place ≢ None }
        requires whole { records.old.broken ≡ false }
        ensures checked { IsChecked principal op.now room.object arg taken.now.object taken.now.place
            (case_tree taken.now.case) self result.0 (asked_since (P.history panel.old) (P.history panel.new))
            result.1 }
        ensures asked { HasOnlyAsked (P.history panel.old) (P.history panel.new) }
        ensures noted { IsNoted (head_of self) (Some principal) (Call op.now room.object arg) result.1
            (asked_since (P.history panel.old) (P.history panel.new)) records.old records.new }
    {
        if asks(&taken.case) {
            let session = self.pass.session();
            beside.gate.at(rt, Place::Asking { session, principal });
        }
        match judge(rt, alloc, &taken.case, panel) {
            Ok(finding) => self.found(beside.board, op, taken, room, arg, &finding, records),
            Err(GuardError::Down { line }) => self.down(op, taken, room, line, records),
            Err(GuardError::Memory) => (self, Reply::NoMemory),
        }
    }

    /// Answers a call by what the guard found: once its record was sent, the case is known from then on, its verdict is kept where it
    /// lasts, and an allowed call steps on its register.
    fn found<C: Sink>(
        self,
        board: &Board<NalMatter>,
        op: &Name,
        taken: &Taken,
        room: Room,
        arg: u64,
        finding: &Finding,
        records: &mut RecordKeeper<C>,
    ) -> (BoardSession, Reply)
        requires board { self.pass.board ≡ board.now }
        requires who { (p : ℕ) × IsAdmitted (head_of self) p self.admitted }
        requires snap { (p : ℕ) × IsSnapOf (head_of self) (trees_of self) p op.now room.object taken.now.at
            taken.now.case taken.now.place taken.now.object }
        requires op { room.op ≡ op.now }
        requires spare { 1 ≤ self.known.spare }
        requires known { knows_row self.known.rows op.now room.object ≡ true → taken.now.place ≢ None }
        requires judged { (told : List Told) × IsJudged (case_tree taken.now.case) told finding.now }
        requires whole { records.old.broken ≡ false }
        ensures checked { (p : ℕ) (told : List Told) → IsJudged (case_tree taken.now.case) told finding.now
            → IsChecked p op.now room.object arg taken.now.object taken.now.place (case_tree taken.now.case) self
            result.0 told result.1 }
        ensures noted { (p : ℕ) (told : List Told) → IsAdmitted (head_of self) p self.admitted
            → IsJudged (case_tree taken.now.case) told finding.now
            → IsNoted (head_of self) (Some p) (Call op.now room.object arg) result.1 told records.old records.new }
    {
        let told = found_reply(taken.at, finding);
        let what = Recorded::Told(verdict_of(finding));
        let answers = answers_of(&taken.case, what);
        let given = answers.as_slice();
        if !note(&self.admitted, op, &room.object, given, &told, records) {
            let (at, number) = (taken.at, NOT_RECORDED);
            return (self, Reply::Refused { at, number });
        }
        few_lines(&taken.case);
        let BoardSession {
            pass,
            admitted,
            known,
        } = self;
        let (mut pass, mut known) = (pass, known);
        let is_known = known.join(room, taken.place);
        keep(board, &mut pass, is_known, taken, finding);
        let reply = judged_reply(board, &mut pass, op, taken, arg, finding);
        let session = BoardSession {
            pass,
            admitted,
            known,
        };
        (session, reply)
    }

    /// Answers a call for which an authority was down: once its record was sent, the case is known from then on.
    fn down<C: Sink>(
        self,
        op: &Name,
        taken: &Taken,
        room: Room,
        line: u64,
        records: &mut RecordKeeper<C>,
    ) -> (BoardSession, Reply)
        requires who { (p : ℕ) × IsAdmitted (head_of self) p self.admitted }
        requires at { taken.now.at ≡ length self.pass.seen }
        requires op { room.op ≡ op.now }
        requires spare { 1 ≤ self.known.spare }
        requires broken { (told : List Told) × IsBrokenOff (case_tree taken.now.case) told (DownError line) }
        requires whole { records.old.broken ≡ false }
        ensures checked { (p arg : ℕ) (told : List Told) → IsBrokenOff (case_tree taken.now.case) told (DownError line)
            → IsChecked p op.now room.object arg taken.now.object taken.now.place (case_tree taken.now.case) self
            result.0 told result.1 }
        ensures noted { (p arg : ℕ) (told : List Told) → IsAdmitted (head_of self) p self.admitted
            → IsBrokenOff (case_tree taken.now.case) told (DownError line)
            → IsNoted (head_of self) (Some p) (Call op.now room.object arg) result.1 told records.old records.new }
    {
        let at = taken.at;
        let told = Reply::Down { at, line };
        let what = Recorded::Down { line };
        let answers = answers_of(&taken.case, what);
        let given = answers.as_slice();
        if !note(&self.admitted, op, &room.object, given, &told, records) {
            let number = NOT_RECORDED;
            return (self, Reply::Refused { at, number });
        }
        let BoardSession {
            pass,
            admitted,
            known,
        } = self;
        let mut known = known;
        let _is_known = known.join(room, taken.place);
        let session = BoardSession {
            pass,
            admitted,
            known,
        };
        (session, told)
    }
}

/// Sends the record of a call by who is admitted, to which authorities gave these answers, and which is about to be told this. Whether the
/// call may go on.
fn note<C: Sink>(
    who: &Option<Admitted>,
    op: &Name,
    object: &Name,
    answers: &[bool],
    told: &Reply,
    records: &mut RecordKeeper<C>,
) -> bool
    requires who { (h : Head) × (p : ℕ) × IsAdmitted h p who.now }
    requires few { length answers.now ≤ 16 }
    requires due { (at : ℕ) × (v : Recorded) × Records told.now at v }
    requires whole { records.old.broken ≡ false }
    ensures sent { result ≡ true → (h : Head) (p arg at : ℕ) (v : Recorded) (asks : List Told) (reply : Reply)
        → IsAdmitted h p who.now → answers.now ≡ given_in asks → Records told.now at v → Records reply at v
        → IsNoted h (Some p) (Call op.now object.now arg) reply asks records.old records.new }
    ensures cut { result ≡ false → (h : Head) (p arg at : ℕ) (v : Recorded) (asks : List Told)
        → IsAdmitted h p who.now → answers.now ≡ given_in asks → Records told.now at v
        → IsNoted h (Some p) (Call op.now object.now arg) (Reply.Refused at 20) asks records.old records.new }
{
    let Some(who) = who else { unreachable!() };
    records.note(&who.name, op, object, answers, told)
}

/// Runs an allowed call on its register. The reply of a call that was judged.
fn judged_reply(
    board: &Board<NalMatter>,
    pass: &mut Pass<NalMatter>,
    op: &Name,
    taken: &Taken,
    arg: u64,
    finding: &Finding,
) -> Reply
    requires board { pass.old.board ≡ board.now }
    requires object { taken.now.object < 65536 }
    ensures { IsReplyOf pass.old pass.new op.now arg taken.now.object taken.now.at 0 (verdict_of finding.now) result }
{
    match finding {
        Finding::Allowed { .. } => {
            let value = run(board, pass, op, taken.object, arg);
            let (at, hit) = (taken.at, 0);
            Reply::Allowed { at, hit, value }
        }
        Finding::Denied(_) => found_reply(taken.at, finding),
    }
}

/// Runs a call on its register where it is allowed by a kept verdict. The reply of a hit.
fn hit(
    board: &Board<NalMatter>,
    pass: &mut Pass<NalMatter>,
    op: &Name,
    place: &CasePlace,
    arg: u64,
    at: u64,
    held: &Held,
) -> Reply
    requires board { pass.old.board ≡ board.now }
    requires object { place.now.object < 65536 }
    requires code { 1 ≤ held.now.code }
    ensures { (verdict : Verdict) → StandsFor verdict held.now
        → IsReplyOf pass.old pass.new op.now arg place.now.object at 1 verdict result }
{
    if held.code == 1 {
        let value = run(board, pass, op, place.object, arg);
        return Reply::Allowed { at, hit: 1, value };
    }
    kept_reply(at, held)
}

/// What a kept verdict tells, without the value of a step.
fn kept_reply(at: u64, held: &Held) -> Reply
    requires code { 1 ≤ held.now.code }
    ensures { (verdict : Verdict) → StandsFor verdict held.now → result ≡ verdict_reply at 1 0 verdict }
{
    if held.code == 1 {
        return Reply::Allowed {
            at,
            hit: 1,
            value: 0,
        };
    }
    Reply::Denied {
        at,
        cause: held.code - 1,
        line: held.line,
        fault: held.fault,
    }
}

/// Keeps the verdict of a known case, where it rests on goal, proof and labels alone.
fn keep(
    board: &Board<NalMatter>,
    pass: &mut Pass<NalMatter>,
    is_known: bool,
    taken: &Taken,
    finding: &Finding,
)
    requires board { pass.old.board ≡ board.now }
    requires at { taken.now.at ≡ length pass.old.seen }
    requires place { IfSome taken.now.place IsPlace }
    requires known { is_known ≡ true → taken.now.place ≢ None }
    requires of_proof { IsOfProof (verdict_of finding.now) }
    requires count { HasCount (case_tree taken.now.case) finding.now }
    requires right { (place : CasePlace) (held : Held) → taken.now.place ≡ Some place
        → StandsFor (verdict_of finding.now) held → IsLasting (case_tree taken.now.case) (verdict_of finding.now)
        → IsHeldRight board.now.origin.setting (entry_trees pass.old.seen) place.case held }
    ensures { HasKept pass.old pass.new is_known taken.now.at taken.now.place (case_tree taken.now.case)
        (verdict_of finding.now) }
{
    if !is_known {
        return;
    }
    if has_asked(finding) {
        return;
    }
    let Some(place) = taken.place else {
        // A known case has a place.
        unreachable!()
    };
    if let Some(held) = held_of(&verdict_of(finding)) {
        board.fill(pass, &place, taken.at, &held);
    }
}

/// The step that an allowed call makes on the register of its object, and what it answers; 0 where the operation makes none.
fn run(
    board: &Board<NalMatter>,
    pass: &mut Pass<NalMatter>,
    op: &Name,
    object: u64,
    arg: u64,
) -> u64
    requires board { pass.old.board ≡ board.now }
    requires object { object < 65536 }
    ensures { HasRun pass.old pass.new op.now arg object AllowedVerdict result }
{
    if op.as_slice() == "read".as_bytes() {
        return board.run_read(pass, object);
    }
    if op.as_slice() == "write".as_bytes() {
        return board.run_write(pass, object, arg);
    }
    if op.as_slice() == "add".as_bytes() {
        return board.run_add(pass, object, arg);
    }
    0
}
