//! The label by which a principal holds a formula.
ghost use Rattle.std.specs.Prelude.{◌≡◌, ◌↔◌, IsTrue, MatchOption, Some, false};
ghost use Rattle.nal_term.specs.Trees.{formula_tree};
ghost use Rattle.label_store.specs.LabelRows.{is_held};
ghost use Rattle.policy_history.specs.Events.{entry_tree};
ghost use Rattle.policy_history.specs.Values.{entry_trees, state_after};
ghost use Rattle.label_holdings.specs.Holdings.{IsHeldBy, label_of};
ghost use Rattle.label_holdings.specs.Tenures.{AreTenures};

use crate::label_tenures::Tenure;
use nal_term::{Formula, equal, equal_terms};
use policy_history::{Entry, Event, Journal};

/// By which entries a principal holds a formula.
#[derive(Clone, Copy, Debug, PartialEq, Eq)]
pub struct Holding {
    /// The entry that said it, which is the number of the label.
    pub said: u64,
    /// The last entry by which another principal transferred it to the holder; that which said it where there is none.
    pub received: u64,
}

/// The label of the lowest number by which the principal holds the formula at the end of the journal, whose tenures these are.
/// None exactly where it does not hold it. It takes no memory.
pub fn holding_of(
    journal: &Journal,
    tenures: &[Tenure],
    principal: u32,
    formula: &Formula,
) -> Option<Holding>
    requires tenures { AreTenures journal.now.head (entry_trees journal.now.entries) tenures.now }
    ensures { MatchOption result
        (is_held (state_after journal.now).labels principal (formula_tree formula.now) ≡ false)
        (IsHeldBy journal.now.head (entry_trees journal.now.entries) principal (formula_tree formula.now)) }
{
    let entries = journal.entries().as_slice();
    let _legal = journal.count();
    for index in 0..entries.len() {
        let tenure = tenures[index];
        if holds(&entries[index], tenure, principal, formula) {
            return Some(Holding {
                said: index as u64 + 1,
                received: tenure.received,
            });
        }
    }
    None
}

/// Whether the entry said the formula, and its label is the principal's by the tenure.
fn holds(entry: &Entry, tenure: Tenure, principal: u32, formula: &Formula) -> bool
    ensures { IsTrue result ↔
        ((tenure.holder ≡ Some principal) × (label_of (entry_tree entry.now).event ≡ Some (formula_tree formula.now))) }
{
    tenure.holder == Some(principal) && says(entry, formula)
}

/// Whether the entry says the formula.
fn says(entry: &Entry, formula: &Formula) -> bool
    ensures { IsTrue result ↔ (label_of (entry_tree entry.now).event ≡ Some (formula_tree formula.now)) }
{
    let Formula::Says(principal, statement) = formula else {
        return false;
    };
    match &entry.event {
        Event::Say {
            principal: Some(by),
            formula: Some(said),
        } => equal_terms(by, principal) && equal(said, statement),
        _ => false,
    }
}
