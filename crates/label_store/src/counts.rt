//! How many labels each principal holds of each formula. A number stays when it falls to 0, since a map takes
//! no place back that a removal leaves: so a transfer needs no memory. Where all places are used, the numbers
//! are made anew from the rows.
ghost use Rattle.std.specs.Prelude.{ℕ, ◌≡◌, ◌+◌, ◌<◌, ◌≤◌, ◌^◌, None, length, cond};
ghost use Rattle.indexmap.specs.IndexMap.{get, index_map_len, spare};
ghost use Rattle.label_store.specs.Inner.Kept.{same_key, count_of, counted};

use crate::rows::Rows;
use indexmap::IndexMap;
use keyed_hash::KeyedHash;

/// The number of labels of a principal and the place of a formula.
pub type Counts = IndexMap<(u32, usize), u64, KeyedHash>;

/// Counts one more label of this key. It takes no memory.
fn add_one(counts: &mut Counts, key: (u32, usize))
    requires room { get same_key counts.old key ≡ None → 0 < spare counts.old }
    requires fits { count_of counts.old key + 1 < 2 ^ 64 }
    ensures numbers { (k : ℕ × ℕ) → count_of counts.new k ≡ count_of counts.old k + cond (same_key key k) 1 0 }
    ensures len { index_map_len counts.new ≤ index_map_len counts.old + 1 }
    ensures room { index_map_len counts.old + spare counts.old ≤ index_map_len counts.new + spare counts.new }
{
    match counts.get_index_of(&key) {
        Some(index) => counts[index] += 1,
        None => {
            counts.insert(key, 1).unwrap();
        }
    }
}

/// Counts one label of this key less. It takes no memory.
pub fn take_one(counts: &mut Counts, key: (u32, usize))
    requires some { 0 < count_of counts.old key }
    ensures numbers { (k : ℕ × ℕ) → count_of counts.new k + cond (same_key key k) 1 0 ≡ count_of counts.old k }
    ensures room { index_map_len counts.old + spare counts.old ≤ index_map_len counts.new + spare counts.new }
{
    if let Some(index) = counts.get_index_of(&key) {
        counts[index] -= 1;
    }
}

/// Counts the labels of all rows anew. It takes no memory.
fn recount(counts: &mut Counts, rows: &Rows)
    requires room { length rows.now.entries ≤ index_map_len counts.old + spare counts.old }
    ensures numbers { (k : ℕ × ℕ) → count_of counts.new k ≡ counted rows.now.entries k }
    ensures room { index_map_len counts.old + spare counts.old ≤ index_map_len counts.new + spare counts.new }
{
    counts.clear();
    for place in 0..rows.len() {
        let row = &rows[place];
        if row.live {
            add_one(counts, (row.holder, row.place));
        }
    }
}

/// Counts one more label of this key, which the rows have already. It takes no memory.
pub fn count(counts: &mut Counts, rows: &Rows, key: (u32, usize))
    requires one_less { (k : ℕ × ℕ) → count_of counts.old k + cond (same_key key k) 1 0 ≡ counted rows.now.entries k }
    requires room { length rows.now.entries ≤ index_map_len counts.old + spare counts.old }
    ensures numbers { (k : ℕ × ℕ) → count_of counts.new k ≡ counted rows.now.entries k }
    ensures room { index_map_len counts.old + spare counts.old ≤ index_map_len counts.new + spare counts.new }
{
    let _len = rows.len();
    if counts.contains_key(&key) || counts.len() < counts.capacity() {
        add_one(counts, key);
    } else {
        recount(counts, rows);
    }
}
