//! The laws of frames.
ghost use Rattle.session_wire.specs.Laws.{AnswersAreBeginnings, FramesAreReadBack, OneBeginning, OneReading, OneReplyBeginning, RepliesAreReadBack, RepliesAreWrittenBack, ReplyAnswersAreBeginnings, RequestsAreWrittenBack};

/// No bytes begin in two ways: with two requests, with a request and a fault, with two faults, or with one fault at two
/// places. The call does nothing.
#[tactic(auto, using(crate::proofs::OneBeginning::one_beginning))]
pub fn bytes_begin_in_one_way()
    ensures { OneBeginning }
{}

/// The frame of a request, whatever follows it, begins with that request and in no other way: what was written is read
/// back. The call does nothing.
pub fn frames_are_read_back()
    ensures { FramesAreReadBack }
{}

/// Bytes that begin with a request are its frame, and what follows it: what was read is written back. The call does
/// nothing.
#[tactic(auto, using(crate::proofs::OneBeginning::requests_are_written_back))]
pub fn requests_are_written_back()
    ensures { RequestsAreWrittenBack }
{}

/// No bytes begin with a reply in two ways. The call does nothing.
#[tactic(auto, using(crate::proofs::OneReply::one_reply_beginning))]
pub fn bytes_begin_with_a_reply_in_one_way()
    ensures { OneReplyBeginning }
{}

/// The frame of a reply, whatever follows it, begins with that reply and in no other way: what was written is read back.
/// The call does nothing.
pub fn replies_are_read_back()
    ensures { RepliesAreReadBack }
{}

/// Bytes that begin with a reply are its frame, and what follows it: what was read is written back. The call does nothing.
#[tactic(auto, using(crate::proofs::OneReply::replies_are_written_back))]
pub fn replies_are_written_back()
    ensures { RepliesAreWrittenBack }
{}

/// The bytes of a connection are the frames of requests, and what follows them, in one way. The call does nothing.
pub fn connections_are_read_in_one_way()
    ensures { OneReading }
{}

/// What a reader takes for an answer begins as the answer tells, whatever follows it. The call does nothing.
#[tactic(auto, using(crate::proofs::ForCallers::answers_are_beginnings, crate::proofs::ForCallers::reply_answers_are_beginnings))]
pub fn answers_are_beginnings()
    ensures requests { AnswersAreBeginnings }
    ensures replies { ReplyAnswersAreBeginnings }
{}
