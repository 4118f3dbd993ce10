// What an actor does that asks the guard, or changes the policy.
ghost use Rattle.std.specs.Prelude.{◌≡◌, ◌<◌, length, IfOk};
ghost use Rattle.std.specs.List.{list_any};
ghost use Rattle.proof_lines.specs.Lines.{line_tree};
ghost use Rattle.nal_rules.specs.Asking.{case_tree, lines_of};
ghost use Rattle.nal_rules.specs.Faults.{is_ask};
ghost use Rattle.policy_history.specs.Events.{event_tree};
ghost use Rattle.cache_machine.specs.Moves.{kept_of, may_be_kept};
ghost use Rattle.cache_machine.specs.Inner.MoveFunctions.{IsAnswered, IsRaisedWritten, IsWritten, fill_move, raise_free, raise_move, run_move, snap_free, snap_move, write_free};
ghost use Rattle.cache_machine.specs.Views.{actor_tree, move_tree, stage_tree, state_of};

use crate::looks::after_verdict;
use crate::same::same_events;
use crate::stages::{Actor, Kept, Move, Stage, World};
use crate::steps::Told;
use case_verdict::verdict;
use nal_rules::{Case, Cause, Verdict};
use nal_term::Name;
use policy_history::{Event, Found};
use proof_lines::{Line, Rule};
use std::alloc::AllocError;

impl World {
    /// Raise finds the region that an accepted event touches.
    pub(crate) fn raise(&self, actor: &Actor, event: &Event) -> Result<Move, AllocError>
        requires principal { actor.now.principal < length self.now.journal.head.principals }
        ensures { IfOk result
            (λ m. move_tree m
            ≡ raise_move (state_of self.now) (actor_tree actor.now) (stage_tree actor.now.stage)
            (event_tree event.now)) }
    {
        match &actor.stage {
            Stage::Resting { .. } => self.raised(actor, event),
            _ => Ok(Move::Idle),
        }
    }

    fn raised(&self, actor: &Actor, event: &Event) -> Result<Move, AllocError>
        requires principal { actor.now.principal < length self.now.journal.head.principals }
        ensures { IfOk result
            (λ m. move_tree m
            ≡ raise_free (state_of self.now) (actor_tree actor.now) (event_tree event.now) self.now.holder) }
    {
        match self.holder {
            Some(_) => Ok(Move::Idle),
            None => match self.journal.decide(actor.session, actor.principal, event) {
                Err(_) => Ok(Move::Idle),
                Ok(_) => match self.journal.region_of(actor.principal, event) {
                    None => Ok(Move::Idle),
                    Some(region) => Ok(Move::Raises(region, event.copy(self.alloc)?)),
                },
            },
        }
    }

    /// Write adds the event for which the actor raised a region, or one that touches none.
    pub(crate) fn write(&self, actor: &Actor, event: &Event) -> Result<Move, AllocError>
        requires principal { actor.now.principal < length self.now.journal.head.principals }
        ensures { IfOk result
            (λ m. IsWritten (state_of self.now) (actor_tree actor.now) (stage_tree actor.now.stage)
            (event_tree event.now) (move_tree m)) }
    {
        match &actor.stage {
            Stage::Resting { .. } => self.written(actor, event),
            Stage::Raised { event: own } => self.written_raised(event, own),
            _ => Ok(Move::Idle),
        }
    }

    fn written(&self, actor: &Actor, event: &Event) -> Result<Move, AllocError>
        requires principal { actor.now.principal < length self.now.journal.head.principals }
        ensures { IfOk result
            (λ m. move_tree m
            ≡ write_free (state_of self.now) (actor_tree actor.now) (event_tree event.now) self.now.holder) }
    {
        match self.holder {
            Some(_) => Ok(Move::Idle),
            None => match self.journal.decide(actor.session, actor.principal, event) {
                Err(_) => Ok(Move::Idle),
                Ok(_) => match self.journal.region_of(actor.principal, event) {
                    None => Ok(Move::Writes(event.copy(self.alloc)?)),
                    Some(_) => Ok(Move::Idle),
                },
            },
        }
    }

    fn written_raised(&self, event: &Event, own: &Event) -> Result<Move, AllocError>
        ensures { IfOk result (λ m. IsRaisedWritten (event_tree event.now) (event_tree own.now) (move_tree m)) }
    {
        if same_events(event, own) {
            Ok(Move::Writes(event.copy(self.alloc)?))
        } else {
            Ok(Move::Idle)
        }
    }

    /// Snap copies the case at the end of the journal.
    pub(crate) fn snap(&self, actor: &Actor, op: &Name, object: &Name) -> Result<Move, AllocError>
        requires principal { actor.now.principal < length self.now.journal.head.principals }
        ensures { IfOk result
            (λ m. move_tree m
            ≡ snap_move (state_of self.now) actor.now.principal (stage_tree actor.now.stage) op.now object.now) }
    {
        match &actor.stage {
            Stage::Resting { .. } => self.snapped(actor.principal, op, object),
            Stage::Missed => self.snapped(actor.principal, op, object),
            _ => Ok(Move::Idle),
        }
    }

    fn snapped(&self, principal: u32, op: &Name, object: &Name) -> Result<Move, AllocError>
        requires { principal < length self.now.journal.head.principals }
        ensures { IfOk result
            (λ m. move_tree m ≡ snap_free (state_of self.now) principal op.now object.now self.now.holder) }
    {
        if self.holder.is_some() {
            return Ok(Move::Idle);
        }
        match self.journal.case_of(self.alloc, principal, op, object)? {
            Found::NoObject => Ok(Move::Idle),
            Found::Case { case, number, .. } => Ok(Move::Goes(Stage::Holding {
                case,
                number,
                at: self.journal.count(),
            })),
        }
    }

    /// Answer tells the verdict on the case that the actor holds.
    pub(crate) fn answer(&self, number: u64, actor: &Actor, answers: &[bool]) -> Move
        ensures { IsAnswered number (stage_tree actor.now.stage) answers.now (move_tree result) }
    {
        match &actor.stage {
            Stage::Holding {
                case,
                number: k,
                at,
            } => {
                let verdict = verdict(self.alloc, case, answers);
                let kept = kept_of(case, *k, *at, verdict);
                Move::Tells(
                    Told {
                        actor: number,
                        at: *at,
                        hit: false,
                        verdict,
                    },
                    after_verdict(verdict, kept),
                )
            }
            _ => Move::Idle,
        }
    }

    /// Fill puts what an actor may keep into the slot of its case.
    pub(crate) fn fill(&self, actor: &Actor) -> Move
        ensures { move_tree result ≡ fill_move (stage_tree actor.now.stage) }
    {
        match &actor.stage {
            Stage::Allowed { kept: Some(kept) } => {
                Move::Fills(*kept, Stage::Allowed { kept: None })
            }
            Stage::Resting { kept: Some(kept) } => {
                Move::Fills(*kept, Stage::Resting { kept: None })
            }
            _ => Move::Idle,
        }
    }

    /// Run ends an allowed call.
    pub(crate) fn run(&self, actor: &Actor) -> Move
        ensures { move_tree result ≡ run_move (stage_tree actor.now.stage) }
    {
        match &actor.stage {
            Stage::Allowed { .. } => Move::Goes(Stage::Resting { kept: None }),
            _ => Move::Idle,
        }
    }
}

/// What may be kept of a verdict on a case with this number, if it has one.
fn kept_of(case: &Case, number: Option<u64>, at: u64, verdict: Verdict) -> Option<Kept>
    ensures { result ≡ kept_of (case_tree case.now) number at verdict }
{
    if !may_be_kept(case, verdict) {
        return None;
    }
    match number {
        None => None,
        Some(case) => Some(Kept {
            case,
            point: at,
            verdict,
        }),
    }
}

/// Whether a verdict rests on goal, proof and labels alone, and is no denial for a label.
fn may_be_kept(case: &Case, verdict: Verdict) -> bool
    ensures { result ≡ may_be_kept (case_tree case.now) verdict }
{
    match verdict {
        Verdict::Allowed => !asks(case),
        Verdict::Denied(Cause::GoalUnset) => true,
        Verdict::Denied(Cause::NoProof) => true,
        Verdict::Denied(Cause::Line { .. }) => true,
        Verdict::Denied(_) => false,
    }
}

/// Whether the proof of a case has an ask line.
fn asks(case: &Case) -> bool
    ensures { result ≡ list_any is_ask (lines_of (case_tree case.now)) }
{
    match &case.proof {
        None => false,
        Some(proof) => has_ask(proof.as_slice()),
    }
}

fn has_ask(lines: &[Line]) -> bool
    ensures { result ≡ list_any (λ l. is_ask (line_tree l)) lines.now }
{
    lines.iter().any(|line| is_ask(line))
}

fn is_ask(line: &Line) -> bool
    ensures { result ≡ is_ask (line_tree line.now) }
{
    matches!(line.rule, Rule::Ask)
}
