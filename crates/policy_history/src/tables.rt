//! The tables that the state of the policy is kept in.
ghost use Rattle.std.specs.Prelude.{◌≡◌, codes};

use crate::tallies::Tally;
use goal_store::GoalStore;
use label_store::LabelStore;
use nal_term::Name;
use object_table::ObjectTable;
use proof_store::ProofStore;

/// The state of the policy, and the number of entries that led to it, with the bytes of their lines.
#[derive(Drop)]
pub struct Policy {
    pub labels: LabelStore,
    pub goals: GoalStore,
    pub cases: ProofStore,
    pub objects: ObjectTable,
    pub tallies: Vec<Tally>,
    pub entries: u64,
    pub bytes: u64,
    // The name of the variable that stands for the caller in a goal.
    pub subject: Name,
    ghost is_subject: { subject ≡ codes "subject" },
}
