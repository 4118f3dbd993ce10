ghost use Rattle.std.specs.Prelude.{◌↔◌, IsTrue};
ghost use Rattle.nal_term.specs.Trees.{formula_tree};
ghost use Rattle.nal_rules.specs.Derivation.{ComparisonHolds};
ghost use Rattle.nal_rules.specs.Faults.{IsTrueComparison};

use nal_term::{Compare, Formula, Term};

/// Whether the comparison of the two numbers holds.
fn comparison_holds(compare: Compare, left: u64, right: u64) -> bool
    ensures { IsTrue result ↔ ComparisonHolds compare left right }
{
    match compare {
        Compare::Equal => left == right,
        Compare::Less => left < right,
        Compare::AtMost => left <= right,
    }
}

/// Whether the formula is a true comparison of two numbers.
pub fn is_true_comparison(f: &Formula) -> bool
    ensures { IsTrue result ↔ IsTrueComparison (formula_tree f.now) }
{
    match f {
        Formula::Test(compare, Term::Number(left), Term::Number(right)) => {
            comparison_holds(*compare, *left, *right)
        }
        _ => false,
    }
}
