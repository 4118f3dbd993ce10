//! The laws of talks.
ghost use Rattle.nexus_client.specs.TalkLaws.{OneSpelling, TalksAreInOrder};

use session_wire::bytes_begin_with_a_reply_in_one_way;

/// What was sent, taken and written in a talk: each reply's line is written before the next request is sent, and so on, as
/// `IsInOrder` says. The call does nothing.
pub fn talks_keep_their_order()
    ensures { TalksAreInOrder }
{
    bytes_begin_with_a_reply_in_one_way();
}

/// The bytes that were taken spell one list of replies. The call does nothing.
pub fn bytes_spell_replies_in_one_way()
    ensures { OneSpelling }
{
    bytes_begin_with_a_reply_in_one_way();
}
