//! The laws of what a session over a shared board is told.
ghost use Rattle.session_core.specs.Earned.{TellsInOrder, TellsWhatIsTrue, TellsWhatIsTrueAlone, TellsWhatLasts};
ghost use Rattle.session_core.specs.ToldLaws.{DownsAreTold, DownsAreToldAlone, NotedStaysNoted, OnlyAllowedRuns, OnlyDoneAdds, ToldStaysTold};

/// What is told of a call is true. Each reply that allows one is earned: at the point that it names the goal in force is derived
/// from labels that the caller holds there and from statements to which authorities answered Yes in this very call. Each reply
/// that denies one tells the first cause that is true there. No reply names a point before an earlier one's, and where a
/// session was told that it has come to a length, none from then on names a point below it. The same holds of sessions over
/// one journal, with no others. The call does nothing.
/// `docs/GUARANTEES.md`, "What an answer means", reads the definitions aloud.
pub fn told_replies_are_earned()
    ensures truth { TellsWhatIsTrue }
    ensures points { TellsInOrder }
    ensures seen { TellsWhatLasts }
    ensures alone { TellsWhatIsTrueAlone }
{}

/// What a session was told over its history it was told over every longer one too, and what was recorded of it is the same. The call does nothing.
pub fn what_was_told_stays_told()
    ensures told { ToldStaysTold }
    ensures noted { NotedStaysNoted }
{}

/// No request steps on a register but one that is replied `Allowed`, and none makes an entry but one that is replied `Done`.
/// The call does nothing.
#[tactic(auto, using(crate::proofs::ToldLaws::only_allowed_runs, crate::proofs::ToldLaws::only_done_adds))]
pub fn only_allowed_calls_run_and_only_changes_add()
    ensures runs { OnlyAllowedRuns }
    ensures adds { OnlyDoneAdds }
{}

/// Authorities were down as often as a session is told it: where a reply is `Down`, one was, and no other ask was answered so, unless
/// the record of its call could not be sent. The call does nothing.
pub fn downs_are_told()
    ensures beside { DownsAreTold }
    ensures alone { DownsAreToldAlone }
{}
