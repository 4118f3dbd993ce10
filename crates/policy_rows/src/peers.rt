//! Bundles, and what a peer comes to that says their labels.
use crate::policies::{error_told, written};
use crate::tables::{holds, text_of};
use journal_text::read_policy;
use peer_labels::{Bundle, BundleError, carry, print_bundle, read_bundle};
use policy_history::Journal;
use std::alloc::{AllocError, Global};

fn bundle_error_told(alloc: Global, error: BundleError) -> Result<String, AllocError> {
    match error {
        BundleError::Memory => Err(AllocError),
        error => format!(in alloc; "{error:?}"),
    }
}

/// How many labels a bundle has, or what is told of a text that is none.
pub fn read(alloc: Global, text: &[u8]) -> Result<String, AllocError> {
    match read_bundle(alloc, text) {
        Ok(bundle) => format!(in alloc; "{}", bundle.labels().len()),
        Err(error) => bundle_error_told(alloc, error),
    }
}

// What becomes of the labels that the first principal says in the next session: how many were done and refused, the policy behind
// them, and the bundle of what that principal holds then.
fn carried_to(alloc: Global, bundle: &Bundle, journal: &mut Journal) -> Result<String, AllocError> {
    let session = journal.greatest_session();
    if session == u64::MAX || journal.head().principals.count() == 0 {
        return Err(AllocError);
    }
    let carried = carry(alloc, bundle, journal, session + 1, 0)?;
    let policy = written(alloc, journal)?;
    let held = print_bundle(alloc, journal, 0)?;
    let held = text_of(alloc, held.as_slice())?;
    format!(in alloc;
        "done {} refused {}\n{policy}{held}",
        carried.done, carried.refused
    )
}

/// As `carried_to`, of the texts of a policy and of a bundle, which stand apart by `+`.
pub fn carried(alloc: Global, texts: &str) -> Result<String, AllocError> {
    let (policy, bundle) = texts.split_once("+").unwrap_or((texts, ""));
    let bundle = match read_bundle(alloc, bundle.as_bytes()) {
        Ok(bundle) => bundle,
        Err(error) => return bundle_error_told(alloc, error),
    };
    match read_policy(alloc, policy.as_bytes()) {
        Ok(mut journal) => carried_to(alloc, &bundle, &mut journal),
        Err(error) => error_told(alloc, error),
    }
}

// The first row of what is carried is the one of docs/LOGIC.md, "Peers". In the last one the peer holds a label of its own already, and
// another label was given to it.
const TABLE: &str = "carry: each label stands in the name of the peer, in order
nexus 2|principal siteA pw|end|+nexus bundle 1|label alice says ok|end| -> \
    done 1 refused 0|nexus 2|principal siteA pw|1 siteA say siteA : alice says ok|end|nexus bundle 1|label siteA says alice says ok|end|
nexus 2|principal siteA pw|end|+nexus bundle 1|end -> done 0 refused 0|nexus 2|principal siteA pw|end|nexus bundle 1|end|
nexus 2|principal siteA pw|principal bob pb|3 bob object f|end|+nexus bundle 1|label a says  p|label a.b says (siteA says q)|label a says p|end| -> \
    done 3 refused 0|nexus 2|principal siteA pw|principal bob pb|3 bob object f|4 siteA say siteA : a says p|4 siteA say siteA : a.b says siteA says q|\
    4 siteA say siteA : a says p|end|nexus bundle 1|label siteA says a says p|label siteA says a.b says siteA says q|label siteA says a says p|end|
nexus 2|principal siteA pw|principal bob pb|1 siteA say siteA : p|1 bob say bob : q|1 bob transfer 2 siteA|end|+nexus bundle 1|label a says r|end| -> \
    done 1 refused 0|nexus 2|principal siteA pw|principal bob pb|1 siteA say siteA : p|1 bob say bob : q|1 bob transfer 2 siteA|2 siteA say siteA : a says r|end|\
    nexus bundle 1|label siteA says p|label bob says q|label siteA says a says r|end|

bundle: which texts are bundles
nexus bundle 1|label alice says ok|end| -> 1
nexus bundle 1|label alice says ok|end -> 1
nexus bundle 1|end| -> 0
nexus bundle 1|label ok|end| -> Bad { line: 2 }
nexus bundle 1|label alice says p(?x)|end| -> Bad { line: 2 }
nexus bundle 1|label alice speaksfor bob|end| -> Bad { line: 2 }
nexus bundle 1|label a says p|label a says|end| -> Bad { line: 3 }
nexus bundle 1|label a says p|Label a says p|end| -> Bad { line: 3 }
nexus bundle 1|label a says p -> Bad { line: 3 }
nexus bundle 1| -> Bad { line: 2 }
nexus bundle 2|end| -> Bad { line: 1 }
nexus bundle 1 |end| -> Bad { line: 1 }
 -> Bad { line: 1 }
| -> Bad { line: 1 }
nexus bundle 1|end|| -> Bad { line: 3 }
nexus bundle 1|end|label a says p|end| -> Bad { line: 3 }
nexus bundle 1|end | -> Bad { line: 2 }

bundle letters: a text may have so many bytes
67108865 -> TooLong";

#[test]
fn bundles_are_read_and_carried(rt: HostRuntime) -> Result<(), AllocError> {
    holds(&rt, rt.alloc(), TABLE)
}
