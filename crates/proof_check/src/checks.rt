ghost use Rattle.std.specs.Prelude.{◌≡◌, ◌≢◌, ◌↔◌, ◌+◌, ◌<◌, ◌≤◌, ℕ, [], length, IfErr, IfOk, IsNone, IsOk, OnOk, MatchOption};
ghost use Rattle.nal_term.specs.Size.{node_count};
ghost use Rattle.nal_term.specs.Trees.{formula_tree};
ghost use Rattle.proof_lines.specs.Lines.{line_trees};
ghost use Rattle.nal_rules.specs.Derivation.{Derives};
ghost use Rattle.nal_rules.specs.Faults.{HasFault, HasLowestFault, IsFaultless, formulas_where, is_ask, is_label, numbers_from};
ghost use Rattle.proof_check.specs.Inner.LineSets.{AreHypothesisSets};
ghost use Rattle.proof_check.specs.Results.{IsRightError};
ghost use Rattle.proof_check.specs.Sizes.{greatest_in, greatest_size, proof_steps};
ghost use Rattle.proof_check.specs.Inner.Sound.{IsSoundAt};

use crate::faults::line_fault;
use crate::hypothesis_sets::hypothesis_sets;
use crate::line_sets::LineSet;
use crate::lists::LineList;
use crate::numbers::{Kind, numbers_of};
use nal_rules::Fault;
use nal_term::{Formula, Steps};
use proof_lines::Proof;
use std::alloc::Global;
use std::marker::Brand;
use std::sync::ledger::{Blank, Ledger};

/// What is asked of the world before a proof that was accepted counts: the numbers of its label lines
/// and of its ask lines, counted from 1.
#[derive(Drop)]
pub struct Checked {
    pub labels: LineList,
    pub asks: LineList,
}

/// Why a proof was not accepted.
#[derive(Clone, Copy, Debug, PartialEq, Eq)]
pub enum CheckError {
    /// The proof has no lines.
    Empty,
    /// The lowest line that has a fault, counted from 1, and the first fault of that line.
    /// `docs/LOGIC.md`, "Faults", says when each applies.
    Line { line: u64, fault: Fault },
    /// There was no memory. `check` takes none, and never answers this.
    Memory,
}

/// A line that has a fault, and its first fault.
#[derive(Clone, Copy)]
struct FaultyLine {
    number: u64,
    fault: Fault,
}

/// Checks the proof against the goal. `Empty` exactly where the proof has no line, else `Line` exactly
/// where a line has a fault, else the numbers of the label lines and of the ask lines. It takes no memory, and never
/// answers `Memory`. `docs/LOGIC.md`, "Faults", says when each fault applies.
pub fn check(alloc: Global, proof: &Proof, goal: &Formula) -> Result<Checked, CheckError>
    ensures empty { (result ≡ Err CheckError.Empty) ↔ (proof.now ≡ []) }
    ensures memory { result ≢ Err CheckError.Memory }
    ensures line { IfErr result (λ e. IsRightError (line_trees proof.now) (formula_tree goal.now) e) }
    ensures faultless { OnOk result
        ((k : ℕ) → IsFaultless (line_trees proof.now) (formula_tree goal.now) k) }
    ensures complete { proof.now ≢ [] → ((k : ℕ) → IsFaultless (line_trees proof.now) (formula_tree goal.now) k)
        → IsOk result }
    ensures labels { IfOk result (λ c. c.labels ≡ numbers_from is_label 1 (line_trees proof.now)) }
    ensures asks { IfOk result (λ c. c.asks ≡ numbers_from is_ask 1 (line_trees proof.now)) }
    ensures derives { OnOk result
        (Derives (formulas_where is_label (line_trees proof.now)) (formulas_where is_ask (line_trees proof.now))
        (formula_tree goal.now)) }
{
    check_uncounted::<Brand>(alloc, proof, goal, Blank::new(1))
}

// The counted call, with a counter that nothing reads.
fn check_uncounted<L: Ledger>(
    alloc: Global,
    proof: &Proof,
    goal: &Formula,
    blank: Blank,
) -> Result<Checked, CheckError>
    requires name { blank.name ≡ L.name }
    requires parts { blank.parts ≡ L.parts }
    requires some { 0 < blank.parts }
    ensures empty { (result ≡ Err CheckError.Empty) ↔ (proof.now ≡ []) }
    ensures memory { result ≢ Err CheckError.Memory }
    ensures line { IfErr result (λ e. IsRightError (line_trees proof.now) (formula_tree goal.now) e) }
    ensures faultless { OnOk result
        ((k : ℕ) → IsFaultless (line_trees proof.now) (formula_tree goal.now) k) }
    ensures complete { proof.now ≢ [] → ((k : ℕ) → IsFaultless (line_trees proof.now) (formula_tree goal.now) k)
        → IsOk result }
    ensures labels { IfOk result (λ c. c.labels ≡ numbers_from is_label 1 (line_trees proof.now)) }
    ensures asks { IfOk result (λ c. c.asks ≡ numbers_from is_ask 1 (line_trees proof.now)) }
    ensures derives { OnOk result
        (Derives (formulas_where is_label (line_trees proof.now)) (formulas_where is_ask (line_trees proof.now))
        (formula_tree goal.now)) }
{
    let mut steps = Steps::<L>::start(blank);
    check_counted(alloc, proof, goal, &mut steps)
}

/// The first fault of the line with this number, counted from 1, whatever faults earlier lines have. None exactly where no fault
/// applies to the line, or where there is no such line. It takes no memory. `docs/LOGIC.md`, "Faults", says when each applies.
pub fn fault_of_line(proof: &Proof, goal: &Formula, number: u64) -> Option<Fault>
    ensures { MatchOption result
        (IsFaultless (line_trees proof.now) (formula_tree goal.now) number)
        (λ fault. HasFault (line_trees proof.now) (formula_tree goal.now) number fault) }
{
    fault_uncounted::<Brand>(proof, goal, number, Blank::new(1))
}

// The counted test, with a counter that nothing reads.
fn fault_uncounted<L: Ledger>(
    proof: &Proof,
    goal: &Formula,
    number: u64,
    blank: Blank,
) -> Option<Fault>
    requires name { blank.name ≡ L.name }
    requires parts { blank.parts ≡ L.parts }
    requires some { 0 < blank.parts }
    ensures { MatchOption result
        (IsFaultless (line_trees proof.now) (formula_tree goal.now) number)
        (λ fault. HasFault (line_trees proof.now) (formula_tree goal.now) number fault) }
{
    let mut steps = Steps::<L>::start(blank);
    let sets = hypothesis_sets(proof);
    line_fault(proof, goal, sets.as_slice(), number, &mut steps)
}

/// As `check`, with a step for each look at the kind of a node where two terms or two formulas are
/// compared, a formula is looked through for a variable or for a name of a scope, or a substitution is
/// made. Where the proof has n lines and no formula or term of it and of the goal more than z nodes,
/// there are at most `n * (z * z + (n + 8) * z)` steps. Where the answer is `Ok` there are at least as
/// many as the goal has nodes.
#[tactic(auto, using(crate::proofs::Costs::steps_with_goal))]
pub fn check_counted<L: Ledger>(
    alloc: Global,
    proof: &Proof,
    goal: &Formula,
    steps: &mut Steps<L>,
) -> Result<Checked, CheckError>
    ensures empty { (result ≡ Err CheckError.Empty) ↔ (proof.now ≡ []) }
    ensures memory { result ≢ Err CheckError.Memory }
    ensures line { IfErr result (λ e. IsRightError (line_trees proof.now) (formula_tree goal.now) e) }
    ensures faultless { OnOk result
        ((k : ℕ) → IsFaultless (line_trees proof.now) (formula_tree goal.now) k) }
    ensures complete { proof.now ≢ [] → ((k : ℕ) → IsFaultless (line_trees proof.now) (formula_tree goal.now) k)
        → IsOk result }
    ensures labels { IfOk result (λ c. c.labels ≡ numbers_from is_label 1 (line_trees proof.now)) }
    ensures asks { IfOk result (λ c. c.asks ≡ numbers_from is_ask 1 (line_trees proof.now)) }
    ensures derives { OnOk result
        (Derives (formulas_where is_label (line_trees proof.now)) (formulas_where is_ask (line_trees proof.now))
        (formula_tree goal.now)) }
    ensures most { steps.new
        ≤ steps.old + proof_steps (length proof.now) (greatest_size (line_trees proof.now) (formula_tree goal.now)) }
    ensures least { OnOk result (steps.old + node_count (formula_tree goal.now) ≤ steps.new) }
{
    if proof.count() == 0 {
        return Err(CheckError::Empty);
    }
    let sets = hypothesis_sets(proof);
    if let Some(faulty) = lowest_fault(proof, goal, sets.as_slice(), steps) {
        return Err(CheckError::Line {
            line: faulty.number,
            fault: faulty.fault,
        });
    }
    Ok(Checked {
        labels: numbers_of(alloc, proof, Kind::Label),
        asks: numbers_of(alloc, proof, Kind::Ask),
    })
}

/// The lowest line that has a fault. None exactly where no line has one.
fn lowest_fault<L: Ledger>(
    proof: &Proof,
    goal: &Formula,
    sets: &[LineSet],
    steps: &mut Steps<L>,
) -> Option<FaultyLine>
    requires sets { AreHypothesisSets (line_trees proof.now) sets.now }
    ensures lowest { MatchOption result
        ((k : ℕ) → IsSoundAt (line_trees proof.now) (formula_tree goal.now) k)
        (λ faulty. HasLowestFault (line_trees proof.now) (formula_tree goal.now) faulty.number faulty.fault) }
    ensures most { steps.new ≤ steps.old + proof_steps (length proof.now) (greatest_in (line_trees proof.now)) }
    ensures least { IsNone result → 0 < length proof.now → steps.old + node_count (formula_tree goal.now) ≤ steps.new }
{
    for number in 1..proof.count() + 1 {
        if let Some(fault) = line_fault(proof, goal, sets, number, steps) {
            return Some(FaultyLine { number, fault });
        }
    }
    None
}
