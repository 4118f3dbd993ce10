//! Which line may follow which in a bundle.
ghost use Rattle.std.specs.Prelude.{◌≡◌, ◌≢◌, IfErr, IfOk, map};
ghost use Rattle.nal_term.specs.Trees.{formula_tree};
ghost use Rattle.peer_labels.specs.Bundles.{Follows, Stage, header_due, label_due};
ghost use Rattle.peer_labels.specs.Inner.Reading.{stage_of};

use form_lines::{LineError, Progress, with_statement};
use nal_term::Formula;
use std::alloc::Global;
use text_lines::after_word;

/// How many labels there may be.
const MOST_LABELS: usize = 262_144;

/// How much of a bundle was read. `docs/FORMATS.md`, "Bundles", says which line may stand where.
#[derive(Drop)]
pub enum BundleProgress {
    HeaderDue,
    /// A label, or the last line, behind these labels.
    LabelDue(Vec<Formula>),
    Complete(Vec<Formula>),
}

impl Progress for BundleProgress {
    ghost use Rattle.peer_labels.specs.Bundles.{Follows, IsComplete, Stage};
    ghost use Rattle.peer_labels.specs.Inner.Reading.{stage_of};

    ghost Stage = { Stage };

    ghost stage = { stage_of };

    ghost follows = { Follows };

    ghost is_end = { IsComplete };

    fn after(self, alloc: Global, line: &[u8]) -> Result<BundleProgress, LineError> {
        match self {
            BundleProgress::HeaderDue => after_start(alloc, line),
            BundleProgress::LabelDue(labels) => after_labels(alloc, labels, line),
            BundleProgress::Complete(_) => Err(LineError::Wrong),
        }
    }

    fn is_ended(&self) -> bool {
        matches!(self, BundleProgress::Complete(_))
    }
}

/// The progress after the first line.
fn after_start(alloc: Global, line: &[u8]) -> Result<BundleProgress, LineError>
    ensures ok { IfOk result (λ next. Follows header_due line.now (stage_of next)) }
    ensures only { IfOk result (λ next. (other : Stage) → Follows header_due line.now other → other ≡ stage_of next) }
    ensures wrong { IfErr result (λ e. e ≢ LineError.Memory → (next : Stage) → ¬ Follows header_due line.now next) }
{
    if line == b"nexus bundle 1".as_slice() {
        Ok(BundleProgress::LabelDue(Vec::new(alloc)))
    } else {
        Err(LineError::Wrong)
    }
}

/// The progress after a line behind these labels.
fn after_labels(
    alloc: Global,
    labels: Vec<Formula>,
    line: &[u8],
) -> Result<BundleProgress, LineError>
    ensures ok { IfOk result (λ next. Follows (label_due (map formula_tree labels.items)) line.now (stage_of next)) }
    ensures only { IfOk result (λ next. (other : Stage)
        → Follows (label_due (map formula_tree labels.items)) line.now other → other ≡ stage_of next) }
    ensures wrong { IfErr result (λ e. e ≢ LineError.Memory →
        (next : Stage) → ¬ Follows (label_due (map formula_tree labels.items)) line.now next) }
{
    if line == b"end".as_slice() {
        return Ok(BundleProgress::Complete(labels));
    }
    let Some(text) = after_word(line, "label ") else {
        return Err(LineError::Wrong);
    };
    if labels.len() >= MOST_LABELS {
        return Err(LineError::Wrong);
    }
    match with_statement(alloc, labels, text) {
        Ok(longer) => Ok(BundleProgress::LabelDue(longer)),
        Err(error) => Err(error),
    }
}
