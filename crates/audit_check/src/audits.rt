//! Records, held against a journal.
ghost use Rattle.std.specs.Prelude.{◌≡◌, ◌<◌, ◌+◌, IfOk, All, Some, length, slice_get, ℕ};
ghost use Rattle.policy_history.specs.Values.{entry_trees};
ghost use Rattle.audit_check.specs.Audits.{IsAudited, IsWithin, IsWrongRecord};
ghost use Rattle.audit_check.specs.Records.{IsRightRecord};
ghost use Rattle.audit_check.specs.declared.records.Record as model;
ghost use Rattle.audit_check.specs.Beginnings.{IsBeginning};
ghost use Rattle.audit_check.specs.Inner.Replays.{AreInOrder};

use crate::judging::is_right;
use crate::records::Record;
use crate::replays::{beginning_of, replay_to};
use policy_history::Journal;
use std::alloc::{AllocError, Global};

/// What is told of records.
#[derive(Clone, Copy, Debug, PartialEq, Eq)]
pub enum Audited {
    /// Each is right.
    Right,
    /// The one with this number, from 1, is the lowest that is wrong.
    Wrong { number: u64 },
}

/// A record by its place in the list, from 0, and by its point.
#[derive(Clone, Copy, Debug, PartialEq, Eq)]
pub struct Place {
    pub at: u64,
    pub index: usize,
}

/// Whether each record is right: `Right` exactly where each is, else `Wrong` with the lowest that is not. A record is right where
/// the verdict on its call, after the entries before its point and with its answers, is the one that it tells; each answer
/// was asked for, and no other. `docs/LOGIC.md`, "Right records", states this.
///
/// The records may stand in any order. The journal is gone through once, and made anew in a second one on the way. An `Err` is
/// want of memory.
pub fn audit(alloc: Global, journal: &Journal, records: &Vec<Record>) -> Result<Audited, AllocError>
    requires { All (IsWithin journal.now.head (entry_trees journal.now.entries)) records.now.items }
    ensures { IfOk result (IsAudited journal.now.head (entry_trees journal.now.entries) records.now.items) }
{
    let places = in_order(alloc, records.as_slice())?;
    let mut part = beginning_of(alloc, journal, 0)?;
    let lowest = lowest_wrong(
        alloc,
        journal,
        &mut part,
        records.as_slice(),
        places.as_slice(),
    );
    drop(part);
    let lowest = lowest?;
    if lowest < records.len() {
        Ok(Audited::Wrong {
            number: lowest as u64 + 1,
        })
    } else {
        Ok(Audited::Right)
    }
}

/// The places of the records, in the order of their points. An `Err` is want of memory.
fn in_order(alloc: Global, records: &[Record]) -> Result<Vec<Place>, AllocError>
    ensures { IfOk result (λ places. AreInOrder records.now places.items) }
{
    let mut places = Vec::new(alloc);
    for index in 0..records.len() {
        places.push(Place {
            at: records[index].at,
            index,
        })?;
    }
    places.sort_unstable_by_key(|place| place.at);
    Ok(places)
}

/// The index of the lowest record that is wrong, or the number of records. `part` is a beginning of the whole journal, and
/// has all its entries up to the last point then. An `Err` is want of memory.
fn lowest_wrong(
    alloc: Global,
    whole: &Journal,
    part: &mut Journal,
    records: &[Record],
    places: &[Place],
) -> Result<usize, AllocError>
    requires begun { IsBeginning part.old whole.now 0 }
    requires within { All (IsWithin whole.now.head (entry_trees whole.now.entries)) records.now }
    requires order { AreInOrder records.now places.now }
    ensures wrong { IfOk result
        (λ lowest. lowest < length records.now
        → IsWrongRecord whole.now.head (entry_trees whole.now.entries) records.now (lowest + 1)) }
    ensures right { IfOk result (λ lowest. (j : ℕ) (r : model.Record) → j < lowest → slice_get records.now j ≡ Some r
        → IsRightRecord whole.now.head (entry_trees whole.now.entries) r) }
{
    let mut lowest = records.len();
    for place in places {
        let recorded = nth(records, place.index);
        replay_to(alloc, part, whole, recorded.at)?;
        if !is_right(alloc, part, recorded)? {
            lowest = lowest.min(place.index);
        }
    }
    Ok(lowest)
}

fn nth(records: &[Record], index: usize) -> &Record
    requires { index < length records.now }
    ensures { slice_get records.now index ≡ Some result.now }
{
    &records[index]
}
