//! Who holds the label of each entry.
ghost use Rattle.std.specs.Prelude.{◌≡◌, ◌≢◌, ◌<◌, ◌+◌, IfOk, Some, length, option_map, take};
ghost use Rattle.policy_history.specs.Events.{entry_tree};
ghost use Rattle.policy_history.specs.Values.{entry_trees};
ghost use Rattle.label_holdings.specs.Holdings.{label_of};
ghost use Rattle.label_holdings.specs.Inner.Steps.{AreHandedOver};
ghost use Rattle.label_holdings.specs.Tenures.{AreTenures, IsTenure};

use policy_history::{Entry, Event, Journal};
use std::alloc::{AllocError, Global};

/// Who holds a label, and since which entry.
#[derive(Clone, Copy, Debug, PartialEq, Eq)]
pub struct Tenure {
    /// The number of the principal that holds it. None where nobody does: it was deleted, or the entry said none.
    pub holder: Option<u32>,
    /// The last entry by which another principal transferred it to its holder; that which said it where there is none. Where nobody
    /// holds it, this says nothing.
    pub received: u64,
}

/// For each entry of the journal, in their order, who holds the label that it said. The entries are gone through once. An `Err`
/// is want of memory.
pub fn tenures(alloc: Global, journal: &Journal) -> Result<Vec<Tenure>, AllocError>
    ensures { IfOk result (λ tenures. AreTenures journal.now.head (entry_trees journal.now.entries) tenures.items) }
{
    let count = journal.entries().len();
    let mut tenures = Vec::new(alloc);
    for index in 0..count {
        hand_over(journal, &mut tenures, index);
        tenures.push(first_tenure(journal, index))?;
    }
    Ok(tenures)
}

/// Who holds the label of the entry in this place just behind it.
fn first_tenure(journal: &Journal, index: usize) -> Tenure
    requires { index < length journal.now.entries }
    ensures { IsTenure journal.now.head (take (index + 1) (entry_trees journal.now.entries)) (index + 1) result }
{
    let _legal = journal.count();
    Tenure {
        holder: first_holder(&journal.entries()[index]),
        received: index as u64 + 1,
    }
}

/// The principal that says a label by the entry. None where it says none.
fn first_holder(entry: &Entry) -> Option<u32>
    ensures { result ≡ option_map (λ _. entry.now.principal) (label_of (entry_tree entry.now).event) }
{
    match &entry.event {
        Event::Say {
            principal: Some(_),
            formula: Some(_),
        } => Some(entry.principal),
        _ => None,
    }
}

/// What the entry in this place does to the labels that were said before it.
fn hand_over(journal: &Journal, tenures: &mut Vec<Tenure>, index: usize)
    requires within { index < length journal.now.entries }
    requires before { AreTenures journal.now.head (take index (entry_trees journal.now.entries)) tenures.old.items }
    ensures { AreHandedOver journal.now.head (take (index + 1) (entry_trees journal.now.entries)) index
        tenures.new.items }
{
    let _legal = journal.count();
    let entry = &journal.entries()[index];
    match &entry.event {
        Event::Transfer { number, to } => {
            let place = *number as usize - 1;
            let tenure = tenures[place];
            let holder = journal.head().principals.number_of(to);
            let number = index as u64 + 1;
            tenures[place] = transferred(tenure, entry.principal, holder, number);
        }
        Event::Delete { number } => tenures[*number as usize - 1].holder = None,
        _ => {}
    }
}

/// The tenure of a label that the giver, who held it, transferred to the holder by the entry with this number.
fn transferred(tenure: Tenure, giver: u32, holder: Option<u32>, number: u64) -> Tenure
    ensures holder { result.holder ≡ holder }
    ensures kept { holder ≡ Some giver → result.received ≡ tenure.received }
    ensures moved { holder ≢ Some giver → result.received ≡ number }
{
    let received = if holder == Some(giver) {
        tenure.received
    } else {
        number
    };
    Tenure { holder, received }
}
