//! The tables of the policy, and what each event does to them.
ghost use Rattle.std.specs.Prelude.{◌≡◌, ◌<◌, ◌≤◌, codes, map, IfOk, OnOk};
ghost use Rattle.policy_history.specs.declared.heads.Principal.{Principal};
ghost use Rattle.policy_history.specs.States.{empty_state};
ghost use Rattle.policy_history.specs.Tables.{state_of, spare_of};

use crate::heads::{Head, Principals};
use crate::tables::Policy;
use crate::tallies::Tally;
use goal_store::GoalStore;
use keyed_hash::HashKey;
use label_store::LabelStore;
use nal_term::Name;
use object_table::ObjectTable;
use proof_store::ProofStore;
use sha2::{Digest, Sha256};
use std::alloc::{AllocError, Global};

impl Policy {
    /// The state before the first entry.
    pub fn new(alloc: Global, head: &Head) -> Result<Policy, AllocError>
        ensures { IfOk result (λ policy. state_of policy ≡ empty_state head.now) }
    {
        // What can fail comes first, so that no store is let go on the way.
        let tallies = no_tallies(alloc, &head.principals)?;
        let subject = subject_variable(alloc)?;
        let key = hash_key(&head.principals);
        Ok(Policy {
            labels: LabelStore::new(alloc, key),
            goals: GoalStore::new(alloc, key),
            cases: ProofStore::new(alloc, key),
            objects: ObjectTable::new(alloc, key),
            tallies,
            entries: 0,
            bytes: 0,
            subject,
        })
    }

    /// Makes room for one more row of each table.
    pub fn reserve(&mut self) -> Result<(), AllocError>
        ensures state { state_of self.new ≡ state_of self.old }
        ensures room { OnOk result (1 ≤ spare_of self.new) }
        ensures kept { spare_of self.old ≤ spare_of self.new }
    {
        self.labels.reserve()?;
        self.goals.reserve()?;
        self.cases.reserve()?;
        self.objects.reserve()
    }
}

// A tally for each principal, of nothing.
fn no_tallies(alloc: Global, principals: &Principals) -> Result<Vec<Tally>, AllocError>
    ensures { IfOk result
        (λ tallies. tallies.items ≡ map (λ (x : Principal). record { entries = 0; bytes = 0 }) principals.now) }
{
    let nothing = Tally {
        entries: 0,
        bytes: 0,
    };
    Vec::from_elem(alloc, nothing, principals.count() as usize)
}

// The name of the variable that stands for the caller in a goal.
fn subject_variable(alloc: Global) -> Result<Name, AllocError>
    ensures { IfOk result (λ name. name ≡ codes "subject") }
{
    match Name::of(alloc, "subject".as_bytes()) {
        Ok(name) => Ok(name),
        Err(_) => Err(AllocError),
    }
}

/// The key of the hashes of a policy's tables: the first half of the SHA-256 digest of all secrets, each with a line feed. Who
/// knows not all of them can't choose names or formulas that collide. No contract says so: the rows are the same under any key.
pub fn hash_key(principals: &Principals) -> HashKey {
    let mut digest = Sha256::new();
    for principal in principals.as_slice() {
        digest.update(principal.secret.as_slice());
        digest.update(b"\n");
    }
    let bytes = digest.finalize();
    let mut first = [0u8; 16];
    for place in 0..16 {
        first[place] = bytes[place];
    }
    HashKey::of(first)
}
