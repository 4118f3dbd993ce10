//! How many entries are kept up to each.
ghost use Rattle.std.specs.Prelude.{◌≡◌, IfOk};
ghost use Rattle.policy_compaction.specs.Inner.Marking.{counts_from};

use std::alloc::{AllocError, Global};

/// For each place, how many marks there are up to it. An `Err` is want of memory.
pub fn counts(alloc: Global, marks: &[bool]) -> Result<Vec<u64>, AllocError>
    ensures { IfOk result (λ counts. counts.items ≡ counts_from 0 marks.now) }
{
    let mut count = 0;
    let mut counts = Vec::new(alloc);
    for mark in marks {
        if *mark {
            count += 1;
        }
        counts.push(count)?;
    }
    Ok(counts)
}
