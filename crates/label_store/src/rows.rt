//! The rows of the store by their numbers. A row that is taken out stays as a hole; where more than half are holes,
//! they are closed up. So a row is found and taken out in constant time on average, and the order stays.
ghost use Rattle.std.specs.Prelude.{ℕ, List, ◌≡◌, ◌+◌, ◌<◌, ◌≤◌, ◌++◌, ◌∷◌, [], ◌&&◌, nat_eq, false, length, slice_get, IfSome, IfNone, Some, IsTrue};
ghost use Rattle.std.specs.List.{All, position};
ghost use Rattle.indexmap.specs.IndexMap.{keys, values, spare, set_value_at};
ghost use Rattle.label_store.specs.Held.{Entry, live_entries, held_from};
ghost use Rattle.label_store.specs.Inner.Kept.{IsTidied, hole};

use indexmap::IndexMap;
use keyed_hash::KeyedHash;

/// Who holds a label, and the place of its formula. Where it does not live, it is a hole.
#[derive(Clone, Copy)]
pub struct Holding {
    pub holder: u32,
    pub place: usize,
    pub live: bool,
}

/// The rows by number, with holes.
pub type Rows = IndexMap<u64, Holding, KeyedHash>;

/// The index and the row of this number, if it lives.
pub fn find_row(rows: &Rows, number: u64) -> Option<(usize, Holding)>
    ensures at { IfSome result (λ r. position (nat_eq number) (keys rows.now) ≡ Some r.0) }
    ensures row { IfSome result (λ r. slice_get (values rows.now) r.0 ≡ Some r.1) }
    ensures live { IfSome result (λ r. IsTrue r.1.live) }
    ensures within { IfSome result (λ r. r.0 < length rows.now.entries) }
    ensures none { IfNone result (All (λ (e : Entry). nat_eq number e.0 ≡ false) (live_entries rows.now.entries)) }
{
    let index = match rows.get_index_of(&number) {
        Some(index) => index,
        None => return None,
    };
    let row = rows[index];
    if row.live { Some((index, row)) } else { None }
}

/// The first row of this principal from an index on, and the index after it.
pub fn next_held(rows: &Rows, holder: u32, first: usize) -> Option<(usize, Holding)>
    ensures next { IfSome result
        (λ r. (n : ℕ) × (held_from rows.now.entries holder first ≡ (n, r.1) ∷ held_from rows.now.entries holder r.0)) }
    ensures row { IfSome result (λ r. (k : ℕ) × (slice_get (values rows.now) k ≡ Some r.1)) }
    ensures none { IfNone result (held_from rows.now.entries holder first ≡ []) }
{
    for index in first..rows.len() {
        let row = rows[index];
        if is_held_by(&row, holder) {
            return Some((index + 1, row));
        }
    }
    None
}

// Whether a row lives and is this principal's.
fn is_held_by(row: &Holding, holder: u32) -> bool
    ensures { result ≡ (row.now.live && nat_eq holder row.now.holder) }
{
    row.live && holder == row.holder
}

/// Adds a row last, under a number above those of the rows that live. It takes no memory.
pub fn push_row(rows: &mut Rows, number: u64, row: Holding)
    requires room { 0 < spare rows.old }
    requires above { All (λ (e : Entry). e.0 < number) (live_entries rows.old.entries) }
    ensures pushed { (es : List Entry) × IsTidied rows.old.entries es × (rows.new.entries ≡ es ++ (number, row) ∷ []) }
    ensures spare { spare rows.old ≤ spare rows.new + 1 }
{
    // Only a hole can have the number.
    if rows.contains_key(&number) {
        close_up(rows);
    }
    rows.insert(number, row).unwrap();
}

/// Makes a hole of the row at an index. Where more than half are holes then, they are closed up. `holes` counts
/// them.
pub fn remove_row(rows: &mut Rows, holes: &mut usize, index: usize)
    requires within { index < length rows.old.entries }
    ensures removed { (w : Holding) × (slice_get (values rows.old) index ≡ Some w)
        × IsTidied (set_value_at rows.old.entries index (hole w)) rows.new.entries }
    ensures spare { spare rows.old ≤ spare rows.new }
{
    rows[index].live = false;
    *holes = holes.saturating_add(1);
    if *holes > rows.len() / 2 {
        close_up(rows);
        *holes = 0;
    }
}

// Takes all holes out.
fn close_up(rows: &mut Rows)
    ensures entries { rows.new.entries ≡ live_entries rows.old.entries }
    ensures spare { spare rows.old ≤ spare rows.new }
{
    rows.retain(
        |_number: &u64, row: &mut Holding| -> bool
            ensures { (result ≡ row.old.live) × (row.new ≡ row.old) }
        { row.live },
    );
}
