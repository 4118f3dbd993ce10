ghost use Rattle.std.specs.Prelude.{◌≡◌, ◌↔◌, ◌<◌, ◌≤◌, ℕ, IsTrue, length};
ghost use Rattle.std.specs.List.{list_any};
ghost use Rattle.proof_check.specs.Inner.LineSets.{AreHypothesisSets, column_of, holds};
ghost use Rattle.proof_check.specs.Inner.Rests.{leads, reaches, rests_by};
ghost use Rattle.proof_lines.specs.Lines.{HasRuleForm, line_tree, line_trees};
ghost use Rattle.nal_rules.specs.Faults.{RestsOn, supports_of};
ghost use Rattle.proof_lines.specs.declared.rules.Rule.TheVariants.{ExistsE, ImpI, OrE};

use crate::line_sets::LineSet;
use arrayvec::ArrayVec;
use proof_lines::{Line, Proof, Rule};

/// How many sets there are: one for each line that a proof may have, and one for none.
const MOST_SETS: usize = 257;

/// For each line, by its number, the set of the hypotheses on which it rests. Line 0, which is none, rests
/// on none. It takes no memory.
pub fn hypothesis_sets(proof: &Proof) -> ArrayVec<LineSet, MOST_SETS>
    ensures { AreHypothesisSets (line_trees proof.now) result.items }
{
    let lines = proof.as_slice();
    let mut sets = ArrayVec::new();
    sets.push(LineSet::empty());
    for (index, line) in lines.iter().enumerate() {
        let set = hypotheses_below(sets.as_slice(), index as u64 + 1, line);
        sets.push(set);
    }
    sets
}

/// Whether the line with this number rests on the hypothesis in line `hypothesis`.
pub fn rests_on(proof: &Proof, sets: &[LineSet], number: u64, hypothesis: u64) -> bool
    requires sets { AreHypothesisSets (line_trees proof.now) sets.now }
    ensures { IsTrue result ↔ RestsOn (line_trees proof.now) number hypothesis }
{
    number < sets.len() as u64 && sets[number as usize].holds(hypothesis)
}

/// Whether the line with this number rests on a hypothesis.
pub fn is_open(proof: &Proof, sets: &[LineSet], number: u64) -> bool
    requires sets { AreHypothesisSets (line_trees proof.now) sets.now }
    ensures { IsTrue result ↔ ((h : ℕ) × RestsOn (line_trees proof.now) number h) }
{
    for hypothesis in 0..proof.count() + 1 {
        if rests_on(proof, sets, number, hypothesis) {
            return true;
        }
    }
    false
}

// The hypotheses on which the line with this number rests, from the sets of the lines before it.
fn hypotheses_below(sets: &[LineSet], number: u64, line: &Line) -> LineSet
    requires some { 0 < number }
    requires most { number ≤ 256 }
    requires sets { length sets.now ≡ number }
    requires form { HasRuleForm (line_tree line.now) }
    ensures { (h : ℕ) → holds result h ≡ rests_by (column_of sets.now h) h number (line_tree line.now) }
{
    match line.rule {
        Rule::Hyp => LineSet::empty().with(number),
        _ => hypotheses_through(sets, number, line),
    }
}

// Those on which it rests by what it refers to.
fn hypotheses_through(sets: &[LineSet], number: u64, line: &Line) -> LineSet
    requires sets { length sets.now ≡ number }
    requires form { HasRuleForm (line_tree line.now) }
    ensures { (h : ℕ) → holds result h
        ≡ list_any (leads (column_of sets.now h) h number) (supports_of line.now.rule line.now.refs) }
{
    let refs = line.refs.as_slice();
    match line.rule {
        Rule::OrE => through_or(sets, number, refs),
        Rule::ImpI => through_implies(sets, number, refs),
        Rule::ExistsE => through_exists(sets, number, refs),
        _ => through_all(sets, number, refs),
    }
}

fn through_or(sets: &[LineSet], number: u64, refs: &[u64]) -> LineSet
    requires sets { length sets.now ≡ number }
    requires five { length refs.now ≡ 5 }
    ensures { (h : ℕ) → holds result h ≡ list_any (leads (column_of sets.now h) h number) (supports_of OrE refs.now) }
{
    match refs {
        [either, left, first, right, second] => {
            let first = reached(sets, number, *first).without(*left);
            let second = reached(sets, number, *second).without(*right);
            reached(sets, number, *either).joined(first).joined(second)
        }
        _ => LineSet::empty(),
    }
}

fn through_implies(sets: &[LineSet], number: u64, refs: &[u64]) -> LineSet
    requires sets { length sets.now ≡ number }
    requires two { length refs.now ≡ 2 }
    ensures { (h : ℕ) → holds result h ≡ list_any (leads (column_of sets.now h) h number) (supports_of ImpI refs.now) }
{
    match refs {
        [assumed, concluded] => reached(sets, number, *concluded).without(*assumed),
        _ => LineSet::empty(),
    }
}

fn through_exists(sets: &[LineSet], number: u64, refs: &[u64]) -> LineSet
    requires sets { length sets.now ≡ number }
    requires three { length refs.now ≡ 3 }
    ensures { (h : ℕ)
        → holds result h ≡ list_any (leads (column_of sets.now h) h number) (supports_of ExistsE refs.now) }
{
    match refs {
        [some, assumed, concluded] => {
            let concluded = reached(sets, number, *concluded).without(*assumed);
            reached(sets, number, *some).joined(concluded)
        }
        _ => LineSet::empty(),
    }
}

fn through_all(sets: &[LineSet], number: u64, refs: &[u64]) -> LineSet
    requires sets { length sets.now ≡ number }
    ensures { (h : ℕ) → holds result h ≡ list_any (reaches (column_of sets.now h) number) refs.now }
{
    match refs.split_first() {
        None => LineSet::empty(),
        Some((first, rest)) => {
            reached(sets, number, *first).joined(through_all(sets, number, rest))
        }
    }
}

// The set of the line with the number `reference`, where it comes before; else none.
fn reached(sets: &[LineSet], number: u64, reference: u64) -> LineSet
    requires sets { length sets.now ≡ number }
    ensures { (h : ℕ) → holds result h ≡ reaches (column_of sets.now h) number reference }
{
    if reference < number {
        sets[reference as usize]
    } else {
        LineSet::empty()
    }
}
