//! The laws between the service and the auditor, and between the service and peers.
ghost use Rattle.told_records.specs.Audited.{AddedAreKept, FreshKeepersAreAudited, RightKeepersAreAudited};
ghost use Rattle.told_records.specs.PeerSessions.{LonePeersSayLabels, PeersSayLabels};
ghost use Rattle.told_records.specs.Recordings.{NoneIsLeftOut, OneBehindTheOther, RecordedIsRight};
ghost use Rattle.told_records.specs.ToldRecords.{AloneIsRight, RepliesAreRight, ToldIsRight};

/// Each reply of a call that a session is told makes a record that is right over the whole history: with the answers that
/// authorities gave to this call, and with answers that are not known. So it is for one request of a session beside others,
/// for all requests of such a session, and for one of a session alone. The call does nothing.
pub fn replies_make_right_records()
    ensures reply { RepliesAreRight }
    ensures session { ToldIsRight }
    ensures alone { AloneIsRight }
{}

/// What was recorded of a session over a policy that is read again as the program writes it: whole lines of records, each right over
/// the whole history, and behind them at most one part of a line, where the sink failed. Where records are wanted, each call whose reply
/// has a record has its line there, whole. And what two sessions had recorded, one behind the other, is such lines too. The call does
/// nothing.
pub fn recorded_lines_are_right()
    ensures session { RecordedIsRight }
    ensures each { NoneIsLeftOut }
    ensures behind { OneBehindTheOther }
{}

/// What comes of the frames of a session is kept, so that it is read again as the program writes it. Where the lines that keepers were sent
/// are right over a policy, and whatever is recovered from a text begins with that policy, so many of these lines as `audit` takes, in any
/// order, are audited behind what is recovered, and all are right. The call does nothing. `docs/LOGIC.md`, "Records of a service".
pub fn recorded_lines_are_audited()
    ensures added { AddedAreKept }
    ensures right { RightKeepersAreAudited }
    ensures fresh { FreshKeepersAreAudited }
{}

/// Where a peer sends the requests of a bundle to a service, each entry that comes of it is that by which the peer says a label of the
/// bundle, in order, each place of the bundle once at most: in a session beside others, and in one that is alone. The call does nothing.
/// `docs/LOGIC.md`, "Peers".
pub fn peers_say_their_labels()
    ensures session { PeersSayLabels }
    ensures alone { LonePeersSayLabels }
{}
