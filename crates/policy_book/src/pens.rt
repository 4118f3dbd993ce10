//! What writes the policy text.
ghost use Rattle.std.specs.Prelude.{◌≡◌, ◌≤◌, false};
ghost use Rattle.policy_book.specs.Books.{entry_of};
ghost use Rattle.policy_book.specs.Inner.Kept.{HasPenned};
ghost use Rattle.policy_book.specs.Inner.Visits.{IsDraft, IsPut, entries_after};
ghost use Rattle.policy_book.specs.Writes.{IsLineFor};

use crate::drafts::Draft;
use nx_io::{Reach, Sink, send_all};
use verdict_words::Mark;

/// A sink, what it was when the book was made, and whether a write or a sync of the text has failed.
#[derive(Drop)]
pub(crate) struct Pen<K: Sink> {
    pub(crate) sink: K,
    pub(crate) start: Mark<K>,
    pub(crate) is_broken: bool,
}

impl<K: Sink> Pen<K> {
    /// Writes the line of a draft, so that it lasts. Where that fails, the pen is broken. It takes no memory.
    pub(crate) fn write(&mut self, draft: &Draft, line: &[u8])
        requires unbroken { self.old.is_broken ≡ false }
        requires draft { IsDraft draft.now.pass.board draft.now }
        requires line { IsLineFor draft.now.pass.board.origin.setting (entry_of draft.now.pass.session
            draft.now.principal draft.now.event) line.now }
        requires text { HasPenned K.sent K.synced K.faults draft.now.pass.board draft.now.pass.seen self.old }
        ensures text { HasPenned K.sent K.synced K.faults draft.now.pass.board (entries_after self.new.is_broken
            draft.now) self.new }
        ensures start { self.new.start ≡ self.old.start }
    {
        let _ = draft;
        self.is_broken = put(&mut self.sink, line);
    }
}

// Sends a line, and brings it to where it lasts. Whether that failed.
fn put<K: Sink>(sink: &mut K, line: &[u8]) -> bool
    ensures put { IsPut result (K.sent sink.old) (K.sent sink.new) (K.synced sink.old) (K.synced sink.new)
        (K.faults sink.old) (K.faults sink.new) line.now }
    ensures later { K.faults sink.old ≤ K.faults sink.new }
{
    match send_all(sink, line) {
        Reach::Ready => matches!(sink.sync(), Reach::Failed),
        Reach::Failed => true,
    }
}
