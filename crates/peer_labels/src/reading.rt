//! Reading a bundle.
ghost use Rattle.std.specs.Prelude.{◌≡◌, ◌<◌, ◌↔◌, Err, IfOk, List, map, length, ℕ};
ghost use Rattle.nal_term.specs.Trees.{FormulaTree, formula_tree};
ghost use Rattle.run_streams.specs.Runs.{most_bytes};
ghost use Rattle.peer_labels.specs.Bundles.{IsBundle, IsWrongLine};

use crate::bundles::{Bundle, bundle_of};
use crate::progress::BundleProgress;
use form_lines::{FormError, read_lines};
use std::alloc::Global;

/// How many bytes a bundle has at most.
const MOST_BYTES: usize = 67_108_864;

/// Why a bundle was not read.
#[derive(Clone, Copy, Debug, PartialEq, Eq)]
pub enum BundleError {
    /// The lowest line that is wrong, or the number after the last where the bundle ends too early.
    Bad { line: u64 },
    /// The text has more than 67,108,864 bytes.
    TooLong,
    /// There was no memory for the labels.
    Memory,
}

/// Reads a bundle. `TooLong` exactly where the text has more than 67,108,864 bytes; else `Bad` exactly where it is no bundle, with the
/// lowest line that is wrong. `docs/FORMATS.md`, "Bundles", states the form.
pub fn read_bundle(alloc: Global, text: &[u8]) -> Result<Bundle, BundleError>
    ensures ok { IfOk result (λ bundle. IsBundle text.now (map formula_tree bundle)) }
    ensures only { IfOk result (λ bundle.
        (others : List FormulaTree) → IsBundle text.now others → others ≡ map formula_tree bundle) }
    ensures too_long { (result ≡ Err BundleError.TooLong) ↔ (most_bytes < length text.now) }
    ensures bad { (k : ℕ) → result ≡ Err (BundleError.Bad k) → IsWrongLine text.now k }
    ensures refused { (k : ℕ) → result ≡ Err (BundleError.Bad k) →
        (others : List FormulaTree) → ¬ IsBundle text.now others }
{
    if text.len() > MOST_BYTES {
        return Err(BundleError::TooLong);
    }
    match read_lines(alloc, BundleProgress::HeaderDue, text) {
        Ok(BundleProgress::Complete(labels)) => Ok(bundle_of(labels)),
        Ok(_) => unreachable!(),
        Err(FormError::Wrong { line }) => Err(BundleError::Bad { line }),
        Err(FormError::Memory) => Err(BundleError::Memory),
    }
}
