//! The board, and how it is made.
ghost use Rattle.std.specs.Prelude.{◌≡◌, ◌<◌, ◌≤◌, [], length, All, IfOk, None};
ghost use Rattle.verdict_words.specs.Words.{word_count, most_entries, first_words};
ghost use Rattle.verdict_words.specs.Rule.{StartsWith};

use crate::mark::Mark;
use crate::matter::Matter;
use crate::seat::BookSeat;
use crate::steps::{FIRST_REGION, WORD_COUNT, Words, make_table};
use crate::views::Key;
use std::alloc::{AllocError, Global};
use std::marker::Model;
use std::snapshot::Snapshot;

/// Atomic words that threads share: the length of a history, a slot for kept verdicts by case, a register by object, and
/// a word for each region. Contracts see it as which board it is.
#[derive(Drop)]
pub struct Board<M: Matter> {
    pub(crate) words: Words<M>,
}

impl<M: Matter> Model for Board<M> {
    ghost use Rattle.std.specs.Prelude.{◌≡◌};
    ghost use Rattle.verdict_words.specs.Values.{Identity};
    ghost use Rattle.verdict_words.specs.Rule.{origin_of};
    ghost use Rattle.verdict_words.specs.Words.{word_count};

    ghost Value = { Identity M.Entry M.Setting };

    ghost view = { λ b. record { table = b.words.shared.table_id; origin = origin_of b.words.shared.key } };

    ghost invariant = { λ b. (b.words.shared.table_id.words ≡ word_count) × (b.words.shared.table_id.slots ≡ 0) };
}

// The words of a new board: the count, the slots and registers, and the regions.
fn first_words(alloc: Global, count: u64) -> Result<Vec<u64>, AllocError>
    ensures { IfOk result (λ v. v.items ≡ first_words count) }
{
    let mut words = Vec::with_capacity(alloc, WORD_COUNT)?;
    words.push(count)?;
    words.resize(FIRST_REGION, 0)?;
    words.resize(WORD_COUNT, count)?;
    Ok(words)
}

impl<M: Matter> Board<M> {
    /// A board with this history, and the seat of its book. The words of the count and of all regions are the number of
    /// entries, and all others are 0: no verdict is kept. The sessions to come are numbered from `next` on, which is above
    /// the session of each entry. The error is want of memory.
    pub fn make(
        alloc: Global,
        setting: &M::Setting,
        entries: &Vec<M::Entry>,
        next: u64,
    ) -> Result<(Board<M>, BookSeat<M>), AllocError>
        requires first { 1 ≤ next }
        requires sessions { All (λ entry. M.session entry < next) entries.now.items }
        requires short { length entries.now.items ≤ most_entries }
        ensures board { IfOk result
            (λ r. r.0.origin ≡ record { setting = setting.now; opening = entries.now.items; first = next }) }
        ensures words { IfOk result
            (λ r. StartsWith M.session (M.right r.0.origin.setting) (M.touches r.0.origin.setting) r.0.origin
            (first_words (length entries.now.items))) }
        ensures seat { IfOk result
            (λ r. r.1
            ≡ record {
              board = r.0;
              entries = entries.now.items;
              next = next;
              turn = 0;
              lag = [];
              raised = None;
              known = [];
            }) }
    {
        let count = entries.len() as u64;
        let words = first_words(alloc, count)?;
        let key = Key {
            setting: Snapshot::of(setting),
            opening: Snapshot::of(entries),
            first: next,
        };
        let (words, place) = make_table::<M>(alloc, words.as_slice(), &key)?;
        let board = Board { words };
        let seat = BookSeat {
            place,
            next,
            count,
            board: Mark::of(&board),
        };
        Ok((board, seat))
    }

    /// One load of the word with this number, outside every pass. It tells nothing of what is found.
    pub fn word(&self, k: u64) -> u64
        requires { k < word_count }
    {
        self.peek(k)
    }
}
