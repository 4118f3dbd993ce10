ghost use Rattle.std.specs.Prelude.{◌≡◌, length};
ghost use Rattle.std.specs.List.{list_all};
ghost use Rattle.proof_check.specs.Inner.Rests.{is_hyp_at};
ghost use Rattle.proof_lines.specs.Lines.{HasRuleForm, line_tree, line_trees};
ghost use Rattle.nal_rules.specs.Faults.{hypotheses_of};
ghost use Rattle.proof_lines.specs.declared.rules.Rule.TheVariants.{ExistsE, ImpI, OrE};

use crate::premises::line_at;
use proof_lines::{Line, Proof, Rule};

/// Whether each line that the line discharges is a hypothesis.
pub fn are_hypotheses(proof: &Proof, line: &Line) -> bool
    requires form { HasRuleForm (line_tree line.now) }
    ensures { result
        ≡ list_all (is_hyp_at (line_trees proof.now)) (hypotheses_of line.now.rule line.now.refs) }
{
    let refs = line.refs.as_slice();
    match line.rule {
        Rule::OrE => are_hypotheses_of_or(proof, refs),
        Rule::ImpI => are_hypotheses_of_implies(proof, refs),
        Rule::ExistsE => are_hypotheses_of_exists(proof, refs),
        _ => true,
    }
}

fn are_hypotheses_of_or(proof: &Proof, refs: &[u64]) -> bool
    requires five { length refs.now ≡ 5 }
    ensures { result ≡ list_all (is_hyp_at (line_trees proof.now)) (hypotheses_of OrE refs.now) }
{
    match refs {
        [_, left, _, right, _] => is_hypothesis(proof, *left) && is_hypothesis(proof, *right),
        _ => true,
    }
}

fn are_hypotheses_of_implies(proof: &Proof, refs: &[u64]) -> bool
    requires two { length refs.now ≡ 2 }
    ensures { result ≡ list_all (is_hyp_at (line_trees proof.now)) (hypotheses_of ImpI refs.now) }
{
    match refs {
        [assumed, _] => is_hypothesis(proof, *assumed),
        _ => true,
    }
}

fn are_hypotheses_of_exists(proof: &Proof, refs: &[u64]) -> bool
    requires three { length refs.now ≡ 3 }
    ensures { result ≡ list_all (is_hyp_at (line_trees proof.now)) (hypotheses_of ExistsE refs.now) }
{
    match refs {
        [_, assumed, _] => is_hypothesis(proof, *assumed),
        _ => true,
    }
}

/// Whether there is a line with this number, and it is a hypothesis.
fn is_hypothesis(proof: &Proof, number: u64) -> bool
    ensures { result ≡ is_hyp_at (line_trees proof.now) number }
{
    match line_at(proof, number) {
        Some(line) => matches!(line.rule, Rule::Hyp),
        None => false,
    }
}
