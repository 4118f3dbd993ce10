//! Why a call has its verdict.
ghost use Rattle.std.specs.Prelude.{◌≡◌, ◌<◌, ℕ, IfOk, IfSome, IsNone, Some, None, length, option_map};
ghost use Rattle.nal_term.specs.Trees.{formula_tree};
ghost use Rattle.proof_lines.specs.Lines.{line_trees};
ghost use Rattle.nal_rules.specs.Asking.{case_tree};
ghost use Rattle.object_table.specs.Objects.{number_of};
ghost use Rattle.policy_history.specs.Values.{entry_trees, state_after};
ghost use Rattle.case_reasons.specs.Explanations.{IsExplained};
ghost use Rattle.case_reasons.specs.Inner.Calls.{IsExplanationOf, IsGoalOf, IsObjectOf, IsProofOf, IsThere, case_of_call, goal_of_call, proof_of_call};
ghost use Rattle.case_reasons.specs.Origins.{IsObjectReason};

use crate::entries::{Deed, last_of};
use crate::lines::{Judged, LineReason};
use case_verdict::verdict;
use nal_rules::{Case, Verdict};
use nal_term::{Formula, Name};
use policy_history::{Found, Journal};
use proof_lines::Proof;
use std::alloc::{AllocError, Global};

/// Why a call has its verdict.
#[derive(Drop)]
pub enum Explained {
    /// No object has the name.
    NoObject,
    Known(Explanation),
}

/// The verdict on a call, and what it comes from.
#[derive(Drop)]
pub struct Explanation {
    pub verdict: Verdict,
    pub object: ObjectReason,
    /// None where no goal is set.
    pub goal: Option<GoalReason>,
    /// None where the caller has no proof registered.
    pub proof: Option<ProofReason>,
}

/// Where an object comes from.
#[derive(Clone, Copy, Debug, PartialEq, Eq)]
pub struct ObjectReason {
    /// The entry that made it.
    pub entry: u64,
    /// The number of the principal that owns it.
    pub owner: u32,
}

/// Where a goal comes from.
#[derive(Drop)]
pub struct GoalReason {
    /// The entry that set it.
    pub entry: u64,
    /// The goal, the caller's name in place of `?subject`.
    pub goal: Formula,
}

/// Where a proof comes from, and on what it rests.
#[derive(Drop)]
pub struct ProofReason {
    /// The entry that registered it.
    pub entry: u64,
    pub proof: Proof,
    /// One for each line, in their order.
    pub lines: Vec<LineReason>,
}

/// Why the call has its verdict at the end of the journal, with these answers of authorities; one that is missing is No, and one
/// that is not asked for is not looked at. An `Err` is want of memory. `docs/LOGIC.md`, "Explanations", states what is told.
pub fn explain(
    alloc: Global,
    journal: &Journal,
    principal: u32,
    op: &Name,
    object: &Name,
    answers: &[bool],
) -> Result<Explained, AllocError>
    requires { principal < length journal.now.head.principals }
    ensures { IfOk result
        (IsExplained journal.now.head (entry_trees journal.now.entries) principal op.now object.now answers.now) }
{
    let Some(made) = object_reason(journal, object) else {
        return Ok(Explained::NoObject);
    };
    match journal.case_of(alloc, principal, op, object)? {
        Found::NoObject => Ok(Explained::NoObject),
        Found::Case {
            case,
            object: number,
            ..
        } => {
            let call = Call {
                journal,
                principal,
                op,
                object,
                number,
            };
            Ok(Explained::Known(call.explained(alloc, made, case, answers)?))
        }
    }
}

/// Where the object with this name comes from. None exactly where there is none.
fn object_reason(journal: &Journal, object: &Name) -> Option<ObjectReason>
    ensures none { IsNone result → number_of (state_after journal.now).objects object.now ≡ None }
    ensures some { IfSome result (λ made. (number : ℕ)
        → number_of (state_after journal.now).objects object.now ≡ Some number
        → IsObjectReason journal.now.head (entry_trees journal.now.entries) object.now number made) }
{
    let (number, entry) = last_of(journal, Deed::Makes { object })?;
    Some(ObjectReason {
        entry: number,
        owner: entry.principal,
    })
}

/// Who calls which operation on which object, at the end of a journal.
#[derive(Clone, Copy)]
pub struct Call<'a> {
    pub journal: &'a Journal,
    pub principal: u32,
    pub op: &'a Name,
    pub object: &'a Name,
    /// The object's number.
    pub number: u64,
}

impl<'a> Call<'a> {
    /// The verdict on the call's case, and what it comes from. An `Err` is want of memory.
    fn explained(
        &self,
        alloc: Global,
        object: ObjectReason,
        case: Case,
        answers: &[bool],
    ) -> Result<Explanation, AllocError>
        requires there { IsThere self.now }
        requires made { IsObjectOf self.now object }
        requires case { case_tree case ≡ case_of_call self.now }
        ensures { IfOk result (IsExplanationOf self.now answers.now) }
    {
        let verdict = verdict(alloc, &case, answers);
        let judged = Judged {
            journal: self.journal,
            principal: self.principal,
            case: &case,
            answers,
            verdict,
        };
        let lines = judged.reasons(alloc)?;
        let Case { goal, proof, .. } = case;
        Ok(Explanation {
            verdict,
            object,
            goal: self.goal_reason(goal),
            proof: self.proof_reason(proof, lines),
        })
    }

    /// Where the goal comes from.
    fn goal_reason(&self, goal: Option<Formula>) -> Option<GoalReason>
        requires there { IsThere self.now }
        requires goal { option_map formula_tree goal ≡ goal_of_call self.now }
        ensures { IsGoalOf self.now result }
    {
        let goal = goal?;
        let (entry, _) = last_of(
            self.journal,
            Deed::ChangesGoal {
                op: self.op,
                object: self.object,
            },
        )?;
        Some(GoalReason { entry, goal })
    }

    /// Where the proof comes from, with the reasons of its lines.
    fn proof_reason(&self, proof: Option<Proof>, lines: Vec<LineReason>) -> Option<ProofReason>
        requires there { IsThere self.now }
        requires proof { option_map line_trees proof ≡ proof_of_call self.now }
        ensures none { IsNone result → proof_of_call self.now ≡ None }
        ensures some { IfSome result (IsProofOf self.now) }
        ensures lines { IfSome result (λ r. r.lines.items ≡ lines.items) }
    {
        let proof = proof?;
        let (entry, _) = last_of(
            self.journal,
            Deed::ChangesProof {
                principal: self.principal,
                op: self.op,
                object: self.object,
            },
        )?;
        Some(ProofReason {
            entry,
            proof,
            lines,
        })
    }
}
