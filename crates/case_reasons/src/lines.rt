//! On what the lines of a proof rest.
ghost use Rattle.std.specs.Prelude.{◌≡◌, List, IfOk, MatchOption, Some, None, option_map};
ghost use Rattle.nal_term.specs.Trees.{formula_tree};
ghost use Rattle.proof_lines.specs.Lines.{LineTree, line_tree, line_trees};
ghost use Rattle.proof_lines.specs.declared.rules.Rule.TheVariants.{Ask};
ghost use Rattle.nal_rules.specs.Asking.{case_tree, lines_of};
ghost use Rattle.nal_rules.specs.Faults.{line_at};
ghost use Rattle.case_reasons.specs.LineReasons.{HasFaultFor, IsFaultlessFor, port_for};
ghost use Rattle.case_reasons.specs.Inner.Answered.{answer_before, answer_by};
ghost use Rattle.case_reasons.specs.Inner.Calls.{HasGround, HasLabelReason, HasProof, HasReason, HasReasons, HasTenures, IsTold, case_of};

use label_holdings::{Holding, Tenure, holding_of, tenures};
use nal_rules::{Case, Cause, Fault, Verdict};
use nal_term::Formula;
use policy_history::Journal;
use proof_check::{fault_of_line, port_of};
use proof_lines::{Line, Proof, Rule};
use std::alloc::{AllocError, Global};

/// On what a line rests, or why it does not stand.
#[derive(Clone, Copy, Debug, PartialEq, Eq)]
pub enum LineReason {
    /// It has this fault, which is the first that applies to it; where no goal is set, none is that it is not the goal.
    Faulty(Fault),
    /// A label line, whose formula the caller holds by these entries.
    Held(Holding),
    /// A label line, whose formula the caller does not hold.
    Missing,
    /// An ask line, whose authority is asked at this port; `yes` is its answer.
    Answered { port: u64, yes: bool },
    /// An ask line, whose authority is not asked, since the call is decided before.
    NotAsked { port: u64 },
    /// An ask line, whose principal has no authority.
    NotBound,
    /// A line of another rule, which stands.
    Derived,
}

/// A call that was judged at the end of a journal, with these answers.
#[derive(Clone, Copy)]
pub struct Judged<'a> {
    pub journal: &'a Journal,
    pub principal: u32,
    pub case: &'a Case,
    pub answers: &'a [bool],
    pub verdict: Verdict,
}

impl<'a> Judged<'a> {
    /// The reasons of the lines of the case's proof, in their order; none where it has no proof. An `Err` is want of memory.
    pub fn reasons(&self, alloc: Global) -> Result<Vec<LineReason>, AllocError>
        requires told { IsTold self.now }
        ensures { IfOk result (λ reasons. (proof : List LineTree) → HasProof self.now proof
            → HasReasons self.now proof reasons.items) }
    {
        match &self.case.proof {
            Some(proof) => self.reasons_of(alloc, proof),
            None => Ok(Vec::new(alloc)),
        }
    }

    /// The reasons of the lines of this proof, which is the case's.
    fn reasons_of(&self, alloc: Global, proof: &Proof) -> Result<Vec<LineReason>, AllocError>
        requires told { IsTold self.now }
        requires proof { HasProof self.now (line_trees proof.now) }
        ensures { IfOk result (λ reasons. HasReasons self.now (line_trees proof.now) reasons.items) }
    {
        let tenures = tenures(alloc, self.journal)?;
        let lines = proof.as_slice();
        let mut reasons = Vec::new(alloc);
        for index in 0..lines.len() {
            reasons.push(self.reason(tenures.as_slice(), proof, index as u64 + 1, &lines[index]))?;
        }
        Ok(reasons)
    }

    /// The reason of the line with this number, from 1.
    fn reason(&self, tenures: &[Tenure], proof: &Proof, number: u64, line: &Line) -> LineReason
        requires told { IsTold self.now }
        requires proof { HasProof self.now (line_trees proof.now) }
        requires tenures { HasTenures self.now tenures.now }
        requires line { line_at (line_trees proof.now) number ≡ Some (line_tree line.now) }
        ensures { HasReason self.now (line_trees proof.now) number (line_tree line.now) result }
    {
        match fault_for(&self.case.goal, proof, number) {
            Some(fault) => LineReason::Faulty(fault),
            None => self.ground(tenures, number, line),
        }
    }

    /// On what a line without a fault rests.
    fn ground(&self, tenures: &[Tenure], number: u64, line: &Line) -> LineReason
        requires told { IsTold self.now }
        requires tenures { HasTenures self.now tenures.now }
        requires line { line_at (lines_of (case_of self.now)) number ≡ Some (line_tree line.now) }
        ensures stands { HasGround self.now number (line_tree line.now) result }
    {
        match line.rule {
            Rule::Label => self.label_reason(tenures, &line.formula),
            Rule::Ask => self.ask_reason(number, line),
            _ => LineReason::Derived,
        }
    }

    /// Whether the caller holds the formula of a label line, and since when.
    fn label_reason(&self, tenures: &[Tenure], formula: &Formula) -> LineReason
        requires tenures { HasTenures self.now tenures.now }
        ensures { HasLabelReason self.now (formula_tree formula.now) result }
    {
        match holding_of(self.journal, tenures, self.principal, formula) {
            Some(holding) => LineReason::Held(holding),
            None => LineReason::Missing,
        }
    }

    /// Who is asked for an ask line, and what the answer was.
    fn ask_reason(&self, number: u64, line: &Line) -> LineReason
        requires told { IsTold self.now }
        requires line { line_at (lines_of (case_of self.now)) number ≡ Some (line_tree line.now) }
        requires ask { line.now.rule ≡ Ask }
        ensures { HasGround self.now number (line_tree line.now) result }
    {
        let Some(port) = port_for(self.case, &line.formula) else {
            return LineReason::NotBound;
        };
        match answer_by(self.verdict, number) {
            Some(yes) => LineReason::Answered { port, yes },
            None => LineReason::NotAsked { port },
        }
    }
}

/// The port of the authority that the statement is asked of. None exactly where its principal has none.
fn port_for(case: &Case, formula: &Formula) -> Option<u64>
    ensures { result ≡ port_for (case_tree case.now) (formula_tree formula.now) }
{
    match formula {
        Formula::Says(principal, _) => port_of(case.bound.as_slice(), principal),
        _ => None,
    }
}

/// What the ask line with this number was answered, by the verdict.
fn answer_by(verdict: Verdict, number: u64) -> Option<bool>
    ensures { result ≡ answer_by verdict number }
{
    match verdict {
        Verdict::Allowed => Some(true),
        Verdict::Denied(Cause::AuthorityNo { line }) => answer_before(line, number),
        Verdict::Denied(_) => None,
    }
}

/// What an ask line was answered, where this line was answered No.
fn answer_before(refused: u64, number: u64) -> Option<bool>
    ensures { result ≡ answer_before refused number }
{
    if number < refused {
        Some(true)
    } else if number == refused {
        Some(false)
    } else {
        None
    }
}

/// The fault of the line with this number, where the proof is one of this goal. Where no goal is set, none is that the line is not
/// the goal: the last line is then taken for it.
fn fault_for(goal: &Option<Formula>, proof: &Proof, number: u64) -> Option<Fault>
    ensures { MatchOption result
        (IsFaultlessFor (option_map formula_tree goal.now) (line_trees proof.now) number)
        (λ fault. HasFaultFor (option_map formula_tree goal.now) (line_trees proof.now) number fault) }
{
    match goal {
        Some(goal) => fault_of_line(proof, goal, number),
        None => fault_without_goal(proof, number),
    }
}

/// The same where no goal is set.
fn fault_without_goal(proof: &Proof, number: u64) -> Option<Fault>
    ensures { MatchOption result
        (IsFaultlessFor None (line_trees proof.now) number)
        (λ fault. HasFaultFor None (line_trees proof.now) number fault) }
{
    let last = proof.line(proof.count())?;
    fault_of_line(proof, &last.formula, number)
}
