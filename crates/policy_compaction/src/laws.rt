//! The law of compacted histories.
ghost use Rattle.policy_compaction.specs.Compactions.{CompactionsStand};

/// Every legal history can be compacted: what is left is legal and of one standing with it, has the same cases, nobody has
/// more entries or bytes there, and it is compacted to itself. The call does nothing.
pub fn compactions_stand()
    ensures { CompactionsStand }
{}
