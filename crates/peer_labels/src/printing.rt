//! Writing a bundle.
ghost use Rattle.std.specs.Prelude.{◌≡◌, ◌≤◌, ◌++◌, IfOk, OnOk, length};
ghost use Rattle.nal_term.specs.Trees.{formula_tree};
ghost use Rattle.nal_parse.specs.Canonical.{IsSpellable, formula_text};
ghost use Rattle.label_store.specs.LabelRows.{labels_of};
ghost use Rattle.policy_history.specs.PolicyTexts.{ended};
ghost use Rattle.policy_history.specs.Values.{state_after};
ghost use Rattle.run_streams.specs.Runs.{most_bytes};
ghost use Rattle.peer_labels.specs.Bundles.{IsBundle, bundle_text, label_word};

use nal_parse::print_formula;
use nal_term::Formula;
use nx_io::Bytes;
use policy_history::Journal;
use std::alloc::{AllocError, Global};

/// The bundle of the labels that a principal holds after all entries, in their order, each in canonical text. It is read again as
/// these labels. An `Err` is want of memory. `docs/FORMATS.md`, "Bundles", states the form.
pub fn print_bundle(alloc: Global, journal: &Journal, holder: u32) -> Result<Bytes, AllocError>
    ensures text { IfOk result (λ text. text ≡ bundle_text (labels_of (state_after journal.now).labels holder)) }
    ensures read_again { IfOk result (λ text. IsBundle text (labels_of (state_after journal.now).labels holder)) }
    ensures short { IfOk result (λ text. length text ≤ most_bytes) }
{
    // For the contract alone: the entries are legal.
    let _entries = journal.count();
    let mut text = Bytes::of(alloc, b"nexus bundle 1\n")?;
    let mut labels = journal.labels(holder);
    while let Some(label) = labels.next() {
        push_label(alloc, &mut text, label)?;
    }
    text.extend(b"end\n")?;
    Ok(text)
}

/// Adds the line of a label at the end.
fn push_label(alloc: Global, text: &mut Bytes, label: &Formula) -> Result<(), AllocError>
    ensures text { OnOk result (text.new ≡ text.old ++ ended (label_word ++ formula_text (formula_tree label.now))) }
    ensures spellable { OnOk result (IsSpellable (formula_tree label.now)) }
{
    let formula = print_formula(alloc, label)?;
    text.extend(b"label ")?;
    text.extend(formula.as_slice())?;
    text.extend(b"\n")
}
