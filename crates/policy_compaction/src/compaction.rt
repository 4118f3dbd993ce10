//! Writing the policy of the entries that still matter.
ghost use Rattle.std.specs.Prelude.{◌≡◌, ◌<◌, ◌^◌, ◌++◌, IfOk, OnOk};
ghost use Rattle.std.specs.List.{All, flat_map};
ghost use Rattle.journal_text.specs.PolicyLaws.{IsInSession, IsKeptEntry, IsKeptEvent, IsKeptHead};
ghost use Rattle.journal_text.specs.PolicyText.{ReadsAs};
ghost use Rattle.policy_history.specs.Events.{entry_tree, transfer};
ghost use Rattle.policy_history.specs.PolicyLines.{entry_line};
ghost use Rattle.policy_history.specs.PolicyTexts.{line_of, policy_text};
ghost use Rattle.policy_history.specs.Values.{entry_trees};
ghost use Rattle.policy_compaction.specs.Compactions.{IsCompaction};
ghost use Rattle.policy_compaction.specs.Kept.{compacted, number_line, numbers_text};
ghost use Rattle.policy_compaction.specs.Inner.Marking.{counts_from, marks_of};
ghost use Rattle.policy_compaction.specs.Inner.Printing.{IsPrintable, is_say, kept_as};

use crate::counts::counts;
use crate::laws::compactions_stand;
use crate::marks::marks;
use journal_text::{PolicyPrinter, printed_policies_are_read_again};
use nal_term::Name;
use nx_io::Bytes;
use policy_history::{Entry, Event, Journal};
use std::alloc::{AllocError, Global};

/// The text of the policy of the entries that still matter, and the old and the new numbers of its labels: a line
/// `OLD NEW` for each.
#[derive(Drop)]
pub struct Compacted {
    pub text: Bytes,
    pub numbers: Bytes,
}

/// The policy of the entries of the journal that still matter, and the numbers of its labels. Where each entry of the
/// journal has a session, the text is read as just these. The entries are gone through a few times. An `Err` is want of
/// memory.
/// `docs/LOGIC.md`, "What still matters", states which these are.
pub fn compact(alloc: Global, journal: &Journal) -> Result<Compacted, AllocError>
    ensures text { IfOk result (λ c. c.text
        ≡ policy_text journal.now.head (compacted (entry_trees journal.now.entries))) }
    ensures numbers { IfOk result (λ c. c.numbers ≡ numbers_text (entry_trees journal.now.entries)) }
    ensures stands { IsCompaction journal.now.head (entry_trees journal.now.entries)
        (compacted (entry_trees journal.now.entries)) }
    ensures read_again { IfOk result (λ c. All IsInSession (entry_trees journal.now.entries)
        → ReadsAs c.text journal.now.head (compacted (entry_trees journal.now.entries))) }
{
    let _legal = journal.count();
    printed_policies_are_read_again();
    compactions_stand();
    print_kept(alloc, journal)
}

/// Prints the policy and the numbers.
fn print_kept(alloc: Global, journal: &Journal) -> Result<Compacted, AllocError>
    ensures text { IfOk result (λ c. c.text
        ≡ policy_text journal.now.head (compacted (entry_trees journal.now.entries))) }
    ensures numbers { IfOk result (λ c. c.numbers ≡ numbers_text (entry_trees journal.now.entries)) }
    ensures kept { IfOk result (λ c. IsKeptHead journal.now.head
        × All IsKeptEntry (compacted (entry_trees journal.now.entries))) }
{
    let marks = marks(alloc, journal)?;
    let counts = counts(alloc, marks.as_slice())?;
    let kept = Kept {
        journal,
        marks: marks.as_slice(),
        counts: counts.as_slice(),
    };
    let mut printer = PolicyPrinter::new(alloc);
    printer.head(journal.head())?;
    kept.print_entries(alloc, &mut printer)?;
    printer.piece(b"end\n")?;
    Ok(Compacted {
        text: printer.text,
        numbers: kept.numbers(alloc)?,
    })
}

/// A journal, with a mark for each entry that matters, and how many of these there are up to each entry.
#[derive(Clone, Copy)]
struct Kept<'a> {
    journal: &'a Journal,
    marks: &'a [bool],
    counts: &'a [u64],
    ghost marked: { marks.now ≡ marks_of (entry_trees journal.now.entries) },
    ghost counted: { counts.now ≡ counts_from 0 (marks_of (entry_trees journal.now.entries)) },
}

impl Kept<'_> {
    /// Appends the lines of the entries that matter.
    fn print_entries(&self, alloc: Global, printer: &mut PolicyPrinter) -> Result<(), AllocError>
        ensures text { OnOk result (printer.new.text ≡ printer.old.text
            ++ flat_map (line_of self.now.journal.now.head) (compacted (entry_trees self.now.journal.now.entries))) }
        ensures kept { OnOk result (All IsKeptEntry (compacted (entry_trees self.now.journal.now.entries))) }
    {
        let entries = self.journal.entries().as_slice();
        let _legal = self.journal.count();
        for index in 0..entries.len() {
            let entry = &entries[index];
            if self.marks[index] {
                self.print(alloc, entry, printer)?;
            }
        }
        Ok(())
    }

    /// Appends the line of an entry: of one that transfers a label, with its new number.
    fn print(
        &self,
        alloc: Global,
        entry: &Entry,
        printer: &mut PolicyPrinter,
    ) -> Result<(), AllocError>
        requires { IsPrintable self.now.journal.now.head (entry_trees self.now.journal.now.entries)
            (entry_tree entry.now) }
        ensures text { OnOk result (printer.new.text ≡ printer.old.text ++ line_of self.now.journal.now.head
            (kept_as (entry_trees self.now.journal.now.entries) (entry_tree entry.now))) }
        ensures kept { OnOk result (IsKeptEntry
            (kept_as (entry_trees self.now.journal.now.entries) (entry_tree entry.now))) }
    {
        let _count = self.journal.count();
        let name = self.journal.head().principals.name(entry.principal);
        match &entry.event {
            Event::Transfer { number, to } => {
                let number = self.counts[*number as usize - 1];
                print_transfer(alloc, entry.session, name, number, to, printer)
            }
            event => printer.entry(entry.session, name, event),
        }
    }

    /// A line for each entry that matters and says a label: its old number, and its new one.
    fn numbers(&self, alloc: Global) -> Result<Bytes, AllocError>
        ensures { IfOk result (λ text. text ≡ numbers_text (entry_trees self.now.journal.now.entries)) }
    {
        let entries = self.journal.entries().as_slice();
        let _legal = self.journal.count();
        let mut text = Bytes::new(alloc);
        for index in 0..entries.len() {
            let entry = &entries[index];
            if self.marks[index] && is_say(entry) {
                add_numbers(alloc, index as u64 + 1, self.counts[index], &mut text)?;
            }
        }
        Ok(text)
    }
}

/// Appends the line of an entry that transfers the label with this number.
fn print_transfer(
    alloc: Global,
    session: u64,
    name: &Name,
    number: u64,
    to: &Name,
    printer: &mut PolicyPrinter,
) -> Result<(), AllocError>
    ensures text { OnOk result (printer.new.text ≡ printer.old.text
        ++ entry_line session name.now (transfer number to.now)) }
    ensures kept { OnOk result ((session < 2 ^ 64) × IsKeptEvent (transfer number to.now)) }
{
    let event = Event::Transfer {
        number,
        to: to.copy(alloc)?,
    };
    printer.entry(session, name, &event)
}

/// Whether the entry says a label.
fn is_say(entry: &Entry) -> bool
    ensures { result ≡ is_say (entry_tree entry.now).event }
{
    matches!(entry.event, Event::Say { .. })
}

/// Appends a line of two numbers.
fn add_numbers(alloc: Global, old: u64, new: u64, text: &mut Bytes) -> Result<(), AllocError>
    ensures { OnOk result (text.new ≡ text.old ++ number_line (old, new)) }
{
    let line = format!(in alloc; "{old} {new}\n")?;
    text.extend(line.as_bytes())
}
