// Statements that compare the time with a number, which a clock answers.
ghost use Rattle.std.specs.Prelude.{◌≡◌};
ghost use Rattle.nal_term.specs.Trees.{formula_tree, term_tree};
ghost use Rattle.nal_term.specs.TreeKeys.{same_terms};
ghost use Rattle.authority_ask.specs.TimeTests.{compares, is_true_at, time_now, time_test};

use crate::panels::Ask;
use nal_term::{Compare, Formula, Term};

/// A comparison of the time with a number.
#[derive(Clone, Copy, Debug, PartialEq, Eq)]
pub enum TimeTest {
    /// The time stands on the left.
    TimeFirst(Compare, u64),
    /// The time stands on the right.
    TimeLast(Compare, u64),
}

impl TimeTest {
    /// What a statement says of the time. None exactly where it has none of the six forms. `docs/LOGIC.md`,
    /// "Authorities", lists them.
    pub fn of(statement: &Formula) -> Option<TimeTest>
        ensures { result ≡ time_test (formula_tree statement.now) }
    {
        match statement {
            Formula::Test(compare, left, Term::Number(number)) if is_time_now(left) => {
                Some(TimeTest::TimeFirst(*compare, *number))
            }
            Formula::Test(compare, Term::Number(number), right) if is_time_now(right) => {
                Some(TimeTest::TimeLast(*compare, *number))
            }
            _ => None,
        }
    }

    /// Whether it is true at a time.
    pub fn is_true_at(self, now: u64) -> bool
        ensures { result ≡ is_true_at now self }
    {
        match self {
            TimeTest::TimeFirst(compare, number) => compares(compare, now, number),
            TimeTest::TimeLast(compare, number) => compares(compare, number, now),
        }
    }
}

/// Whether the term is the name that stands for the time.
fn is_time_now(term: &Term) -> bool
    ensures { result ≡ same_terms (term_tree term.now) time_now }
{
    match term {
        Term::Name(name) => name.as_slice() == b"TimeNow".as_slice(),
        _ => false,
    }
}

/// Whether a comparison of two numbers is true.
fn compares(compare: Compare, left: u64, right: u64) -> bool
    ensures { result ≡ compares compare left right }
{
    match compare {
        Compare::Equal => left == right,
        Compare::Less => left < right,
        Compare::AtMost => left <= right,
    }
}
