ghost use Rattle.std.specs.Prelude.{◌≡◌, ◌≤◌, false};
ghost use Rattle.nx_io.specs.Links.{KeepsGoing};
ghost use Rattle.nx_io.specs.Views.{IsSameLink};
ghost use Rattle.session_wire.specs.Inner.Taking.{AreBytes, EndsAtEnd, FillsWithin, Takes, faults_after_fill, filled, over_after_fill};

use nx_io::{Got, Link};

/// How far a buffer was filled.
#[derive(Clone, Copy, Debug, PartialEq, Eq)]
pub(crate) enum Filled {
    Whole,
    /// So many bytes came, and then the link's end.
    Ended(usize),
    /// So many bytes came, and then the link failed.
    Failed(usize),
}

/// Fills a buffer from an open link, in as many takes as it needs. No byte more is taken.
pub(crate) fn fill<L: Link>(link: &mut L, into: &mut [u8]) -> Filled
    requires open { L.closed link.old ≡ false }
    ensures fit { AreBytes into.new }
    ensures within { FillsWithin result into.new }
    ensures bytes { Takes (L.left link.old) (L.left link.new) (L.taken link.old) (L.taken link.new)
        (filled result into.new) }
    ensures end { EndsAtEnd result (L.left link.new) }
    ensures over { L.over link.new ≡ over_after_fill result into.new (L.over link.old) }
    ensures going { KeepsGoing (L.sent link.old) (L.sent link.new) (L.closed link.old) (L.closed link.new) }
    ensures origin { IsSameLink L.Link link.old link.new }
    ensures admitted { L.admitted link.new ≡ L.admitted link.old }
    ensures later { L.faults link.old ≤ L.faults link.new }
    ensures count { L.faults link.new ≡ faults_after_fill result (L.faults link.old) }
{
    let mut done = 0;
    while done < into.len() {
        match link.take(&mut into[done..]) {
            Got::Bytes(count) => done += count,
            Got::End => return Filled::Ended(done),
            Got::Failed => return Filled::Failed(done),
        }
    }
    Filled::Whole
}
