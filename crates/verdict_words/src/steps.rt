//! The rule of the table, and all atomic steps that are made on it: what each tells, and the call that makes it. No other
//! file calls the table.
ghost use Rattle.std.specs.Prelude.{◌≡◌, ℕ, ◌+◌, ◌<◌, ◌≤◌, [], length, All, IfOk, Some, None};
ghost use mathlib.Core.Option.{none};
ghost use Rattle.atomic_table.specs.Table.{step};
ghost use Rattle.verdict_words.specs.Words.{most_entries, word_count, first_words, slot_word, register_word, region_word, object_region, store_region, spelling, IsHeld, most_cases, most_objects, region_count};
ghost use Rattle.verdict_words.specs.Rule.{first_book, origin_of};
ghost use Rattle.verdict_words.specs.Inner.Steps.{has_read, has_written, has_added, loaded_slot, stored_slot, loaded_count, loaded_object, loaded_store, raised_region, published, checked, admitting, admitted, yielding, yielded, receiving, releasing, returning};
ghost use Rattle.verdict_words.specs.Inner.Seats.{IsPassLoading, CanKeep, CanRaise, CanPublish, IsBooks, IsHoldingOne};
ghost use Rattle.verdict_words.specs.declared.views.Item.TheVariants.{Filled};
ghost use Rattle.verdict_words.specs.declared.views.Loading.TheVariants.{Nothing, Slot, Count, Object};
ghost use Rattle.verdict_words.specs.declared.views.View.TheVariants.{Book, Spent};

use crate::board::Board;
use crate::matter::Matter;
use crate::places::{CasePlace, Held};
use crate::views::{Item, Key, View};
use atomic_table::{Join, Play, Seat, Split, Table, TableRule};
use std::alloc::{AllocError, Global};
use std::marker::{Brand, PhantomData};

// The numbers of slots and of the regions of objects and of stores, the first words of the registers and of the regions, and the
// number of all words.
const SLOTS: u64 = 4096;

const OBJECT_REGIONS: u64 = 256;

const STORE_REGIONS: u64 = 256;

const FIRST_REGISTER: usize = 4097;

pub const FIRST_REGION: usize = 69_633;

pub const WORD_COUNT: usize = 70_145;

/// The rule of a board about `M`.
pub struct Rule<M> {
    matter: PhantomData<M>,
}

impl<M: Matter> TableRule<(), View<M::Entry, M::Setting>, Key<M::Entry, M::Setting>> for Rule<M> {
    ghost use Rattle.verdict_words.specs.Rule.{IsKept, origin_of, first_book};
    ghost use Rattle.verdict_words.specs.declared.views.View.TheVariants.{Book};

    ghost holds = { λ key. IsKept M.session (M.right key.setting.value) (M.touches key.setting.value) (origin_of key) };

    ghost first = { λ key. Book (first_book (origin_of key)) };
}

pub type Words<M> = Table<
    (),
    View<<M as Matter>::Entry, <M as Matter>::Setting>,
    Key<<M as Matter>::Entry, <M as Matter>::Setting>,
    Rule<M>,
    Global,
>;

pub type Place<M> = Seat<(), View<<M as Matter>::Entry, <M as Matter>::Setting>>;

/// What a step is told beside its words, for the proof alone. A call at `Brand` picks it.
pub trait Said<X> {
    ghost use Rattle.std.specs.Prelude.{Option};

    ghost said: { Option X };
}

impl<X> Said<X> for Brand {
    ghost use Rattle.std.specs.Prelude.{None};

    ghost said = { None };
}

pub struct ReadRegister;

impl<E, H> Play<(), View<E, H>> for ReadRegister {
    ghost use Rattle.verdict_words.specs.Inner.Steps.{has_read};

    ghost then = { has_read };
}

pub struct WriteRegister;

impl<E, H> Play<(), View<E, H>> for WriteRegister {
    ghost use Rattle.verdict_words.specs.Inner.Steps.{has_written};

    ghost then = { has_written };
}

pub struct AddRegister;

impl<E, H> Play<(), View<E, H>> for AddRegister {
    ghost use Rattle.verdict_words.specs.Inner.Steps.{has_added};

    ghost then = { has_added };
}

pub struct LoadSlot<W> {
    said: PhantomData<W>,
}

impl<E, H, W: Said<CasePlace>> Play<(), View<E, H>> for LoadSlot<W> {
    ghost use Rattle.verdict_words.specs.Inner.Steps.{loaded_slot};

    ghost then = { loaded_slot W.said };
}

pub struct StoreSlot<W> {
    said: PhantomData<W>,
}

impl<E, H, W: Said<Item>> Play<(), View<E, H>> for StoreSlot<W> {
    ghost use Rattle.verdict_words.specs.Inner.Steps.{stored_slot};

    ghost then = { stored_slot W.said };
}

pub struct LoadCount<M> {
    matter: PhantomData<M>,
}

impl<M: Matter> Play<(), View<M::Entry, M::Setting>> for LoadCount<M> {
    ghost use Rattle.verdict_words.specs.Inner.Steps.{loaded_count};

    ghost then = { loaded_count M.right M.touches };
}

pub struct LoadObject<M> {
    matter: PhantomData<M>,
}

impl<M: Matter> Play<(), View<M::Entry, M::Setting>> for LoadObject<M> {
    ghost use Rattle.verdict_words.specs.Inner.Steps.{loaded_object};

    ghost then = { loaded_object M.right M.touches };
}

pub struct LoadStore<M> {
    matter: PhantomData<M>,
}

impl<M: Matter> Play<(), View<M::Entry, M::Setting>> for LoadStore<M> {
    ghost use Rattle.verdict_words.specs.Inner.Steps.{loaded_store};

    ghost then = { loaded_store M.right M.touches };
}

pub struct RaiseRegion;

impl<E, H> Play<(), View<E, H>> for RaiseRegion {
    ghost use Rattle.verdict_words.specs.Inner.Steps.{raised_region};

    ghost then = { raised_region };
}

pub struct Publish<M, W> {
    matter: PhantomData<(M, W)>,
}

impl<M: Matter, W: Said<M::Entry>> Play<(), View<M::Entry, M::Setting>> for Publish<M, W> {
    ghost use Rattle.verdict_words.specs.Inner.Steps.{published};

    ghost then = { published M.session W.said };
}

pub struct CheckHeld<M> {
    matter: PhantomData<M>,
}

impl<M: Matter> Play<(), View<M::Entry, M::Setting>> for CheckHeld<M> {
    ghost use Rattle.verdict_words.specs.Inner.Steps.{checked};

    ghost then = { checked M.session M.right M.touches };
}

/// The book makes a pass.
pub struct Admit;

impl<E, H> Split<View<E, H>> for Admit {
    ghost use Rattle.verdict_words.specs.Inner.Steps.{admitting, admitted};

    ghost left = { admitting };

    ghost right = { admitted };
}

/// What a pass knows goes to a seat of its own.
pub struct Yield;

impl<E, H> Split<View<E, H>> for Yield {
    ghost use Rattle.verdict_words.specs.Inner.Steps.{yielding, yielded};

    ghost left = { yielding };

    ghost right = { yielded };
}

/// The book takes a pass in.
pub struct Receive;

impl<E, H> Join<View<E, H>> for Receive {
    ghost use Rattle.verdict_words.specs.Inner.Steps.{receiving};
    ghost use Rattle.verdict_words.specs.declared.views.View.TheVariants.{Spent};

    ghost both = { receiving };

    ghost spent = { Spent };
}

/// The book gives the first of the passes back that it holds.
pub struct Return;

impl<E, H> Split<View<E, H>> for Return {
    ghost use Rattle.verdict_words.specs.Inner.Steps.{releasing, returning};

    ghost left = { releasing };

    ghost right = { returning };
}

/// A table of these words, and the seat of its book.
pub fn make_table<M: Matter>(
    alloc: Global,
    words: &[u64],
    key: &Key<M::Entry, M::Setting>,
) -> Result<(Words<M>, Place<M>), AllocError>
    requires first { 1 ≤ key.now.first }
    requires sessions { All (λ entry. M.session entry < key.now.first) (origin_of key.now).opening }
    requires short { length (origin_of key.now).opening ≤ most_entries }
    requires words { words.now ≡ first_words (length (origin_of key.now).opening) }
    ensures table { IfOk result
        (λ r. (r.0.shared.table_id.words ≡ word_count) × (r.0.shared.table_id.slots ≡ 0) × (r.0.shared.key ≡ key.now)) }
    ensures seat { IfOk result
        (λ r. (r.1.table_id ≡ r.0.shared.table_id) × (r.1.me ≡ (Book (first_book (origin_of key.now)), []))) }
{
    Table::of_words(alloc, words, key)
}

impl<M: Matter> Board<M> {
    /// A load that tells nothing.
    #[inline(always)]
    pub(crate) fn peek(&self, word: u64) -> u64
        requires { word < word_count }
    {
        self.words.shared.peek(word as usize)
    }

    /// Loads the slot of the place: a look begins.
    #[inline(always)]
    pub(crate) fn load_slot<W: Said<CasePlace>>(
        &self,
        seat: &mut Place<M>,
        place: &CasePlace,
    ) -> u64
        requires said { W.said ≡ Some place.now }
        requires table { seat.old.table_id ≡ self.now.table }
        requires pass { IsPassLoading Nothing seat.old.me }
        ensures table { seat.new.table_id ≡ self.now.table }
        ensures told { loaded_slot (Some place.now) (step 0 (slot_word place.now.case) 0 0 none) seat.old.me result
            seat.new.me }
    {
        self.words
            .shared
            .load::<LoadSlot<W>>(seat, 1 + (place.case % SLOTS) as usize)
    }

    /// Loads the count for a look: the pass sees the history.
    #[inline(always)]
    pub(crate) fn load_count(&self, seat: &mut Place<M>) -> u64
        requires table { seat.old.table_id ≡ self.now.table }
        requires pass { (place : CasePlace) × (slot : ℕ) × IsPassLoading (Slot place slot) seat.old.me }
        ensures table { seat.new.table_id ≡ self.now.table }
        ensures told { loaded_count M.right M.touches (step 0 0 0 0 none) seat.old.me result seat.new.me }
    {
        self.words.shared.load::<LoadCount<M>>(seat, 0)
    }

    /// Loads the region of the place's object.
    #[inline(always)]
    pub(crate) fn load_object(&self, seat: &mut Place<M>, place: &CasePlace) -> u64
        requires table { seat.old.table_id ≡ self.now.table }
        requires pass { (slot count : ℕ) × IsPassLoading (Count place.now slot count) seat.old.me }
        ensures table { seat.new.table_id ≡ self.now.table }
        ensures told { loaded_object M.right M.touches (step 0 (region_word (object_region place.now.object)) 0 0 none)
            seat.old.me result seat.new.me }
    {
        self.words.shared.load::<LoadObject<M>>(
            seat,
            FIRST_REGION + (place.object % OBJECT_REGIONS) as usize,
        )
    }

    /// Loads the region of the place's store: a look ends.
    #[inline(always)]
    pub(crate) fn load_store(&self, seat: &mut Place<M>, place: &CasePlace) -> u64
        requires table { seat.old.table_id ≡ self.now.table }
        requires pass { (slot count object : ℕ) × IsPassLoading (Object place.now slot count object) seat.old.me }
        ensures table { seat.new.table_id ≡ self.now.table }
        ensures told { loaded_store M.right M.touches (step 0 (region_word (store_region place.now.store)) 0 0 none)
            seat.old.me result seat.new.me }
    {
        self.words.shared.load::<LoadStore<M>>(
            seat,
            FIRST_REGION + (OBJECT_REGIONS + place.store % STORE_REGIONS) as usize,
        )
    }

    /// Stores the word that spells a verdict into the slot of its case.
    #[inline(always)]
    pub(crate) fn store_slot<W: Said<Item>>(
        &self,
        seat: &mut Place<M>,
        place: &CasePlace,
        at: u64,
        held: &Held,
        word: u64,
    )
        requires said { W.said ≡ Some (Filled place.now.case at held.now) }
        requires table { seat.old.table_id ≡ self.now.table }
        requires word { (place.now.case < most_cases) × (at ≤ most_entries) × IsHeld held.now
            × (word ≡ spelling place.now.case at held.now) }
        requires pass { CanKeep (M.right self.now.origin.setting) place.now.case at held.now seat.old.me }
        ensures table { seat.new.table_id ≡ self.now.table }
        ensures told { stored_slot (Some (Filled place.now.case at held.now))
            (step 0 (slot_word place.now.case) word 0 none) seat.old.me word seat.new.me }
    {
        let _ = held;
        self.words
            .shared
            .store::<StoreSlot<W>>(seat, 1 + (place.case % SLOTS) as usize, word);
    }

    /// Loads the register of the object.
    #[inline(always)]
    pub(crate) fn read_register(&self, seat: &mut Place<M>, object: u64) -> u64
        requires table { seat.old.table_id ≡ self.now.table }
        requires object { object < most_objects }
        requires pass { IsPassLoading Nothing seat.old.me }
        ensures table { seat.new.table_id ≡ self.now.table }
        ensures told { has_read (step 0 (register_word object) 0 0 none) seat.old.me result seat.new.me }
    {
        self.words
            .shared
            .load::<ReadRegister>(seat, FIRST_REGISTER + object as usize)
    }

    /// Sets the register of the object, and answers what it held.
    #[inline(always)]
    pub(crate) fn swap_register(&self, seat: &mut Place<M>, object: u64, value: u64) -> u64
        requires table { seat.old.table_id ≡ self.now.table }
        requires object { object < most_objects }
        requires pass { IsPassLoading Nothing seat.old.me }
        ensures table { seat.new.table_id ≡ self.now.table }
        ensures told { has_written (step 0 (register_word object) value 0 none) seat.old.me result seat.new.me }
    {
        self.words
            .shared
            .swap::<WriteRegister>(seat, FIRST_REGISTER + object as usize, value)
    }

    /// Adds to the register of the object, and answers what it held.
    #[inline(always)]
    pub(crate) fn add_to_register(&self, seat: &mut Place<M>, object: u64, value: u64) -> u64
        requires table { seat.old.table_id ≡ self.now.table }
        requires object { object < most_objects }
        requires pass { IsPassLoading Nothing seat.old.me }
        ensures table { seat.new.table_id ≡ self.now.table }
        ensures told { has_added (step 0 (register_word object) value 0 none) seat.old.me result seat.new.me }
    {
        self.words
            .shared
            .fetch_add::<AddRegister>(seat, FIRST_REGISTER + object as usize, value)
    }

    /// Stores the word of a region that is raised.
    #[inline(always)]
    pub(crate) fn store_region(&self, seat: &mut Place<M>, region: u64, word: u64)
        requires table { seat.old.table_id ≡ self.now.table }
        requires region { region < region_count }
        requires book { CanRaise word seat.old.me }
        ensures table { seat.new.table_id ≡ self.now.table }
        ensures told { raised_region (step 0 (region_word region) word 0 none) seat.old.me word seat.new.me }
    {
        self.words
            .shared
            .store::<RaiseRegion>(seat, FIRST_REGION + region as usize, word);
    }

    /// Adds 1 to the count: the entry is published.
    #[inline(always)]
    pub(crate) fn add_to_count<W: Said<M::Entry>>(&self, seat: &mut Place<M>, entry: &M::Entry)
        requires said { W.said ≡ Some entry.now }
        requires table { seat.old.table_id ≡ self.now.table }
        requires book { CanPublish M.session (M.touches self.now.origin.setting) entry.now seat.old.me }
        ensures table { seat.new.table_id ≡ self.now.table }
        ensures told { published M.session (Some entry.now) (step 0 0 1 0 none) seat.old.me 0 seat.new.me }
    {
        let _ = entry;
        self.words.shared.fetch_add::<Publish<M, W>>(seat, 0, 1);
    }

    /// Loads the count: the book learns the order of all steps, and of the passes that it holds.
    #[inline(always)]
    pub(crate) fn check_held(&self, seat: &mut Place<M>)
        requires table { seat.old.table_id ≡ self.now.table }
        requires book { IsBooks seat.old.me }
        ensures table { seat.new.table_id ≡ self.now.table }
        ensures told { checked M.session M.right M.touches (step 0 0 0 0 none) seat.old.me 0 seat.new.me }
    {
        self.words.shared.load::<CheckHeld<M>>(seat, 0);
    }

    /// Splits a seat for a new pass off.
    #[inline(always)]
    pub(crate) fn admit(&self, seat: &mut Place<M>) -> Place<M>
        requires table { seat.old.table_id ≡ self.now.table }
        requires book { IsBooks seat.old.me }
        ensures table { (seat.new.table_id ≡ self.now.table) × (result.table_id ≡ self.now.table) }
        ensures seat { seat.new.me ≡ (admitting seat.old.me.0, []) }
        ensures pass { result.me ≡ (admitted seat.old.me.0, []) }
    {
        self.words.shared.split_seat::<Admit>(seat)
    }

    /// Moves what a pass knows to a seat of its own.
    #[inline(always)]
    pub(crate) fn yield_pass(&self, seat: &mut Place<M>) -> Place<M>
        requires table { seat.old.table_id ≡ self.now.table }
        requires pass { IsPassLoading Nothing seat.old.me }
        ensures table { (seat.new.table_id ≡ self.now.table) × (result.table_id ≡ self.now.table) }
        ensures seat { seat.new.me ≡ (yielding seat.old.me.0, []) }
        ensures pass { result.me ≡ (yielded seat.old.me.0, []) }
    {
        self.words.shared.split_seat::<Yield>(seat)
    }

    /// Joins the seat of a pass to the book's.
    #[inline(always)]
    pub(crate) fn receive(&self, seat: &mut Place<M>, pass: Place<M>)
        requires table { (seat.old.table_id ≡ self.now.table) × (pass.table_id ≡ self.now.table) }
        requires book { IsBooks seat.old.me }
        requires pass { IsPassLoading Nothing pass.me }
        ensures table { seat.new.table_id ≡ self.now.table }
        ensures seat { seat.new.me ≡ (receiving seat.old.me.0 pass.me.0, []) }
    {
        self.words.shared.join_seat::<Receive>(seat, pass);
    }

    /// Splits a seat for the first of the passes that the book holds off.
    #[inline(always)]
    pub(crate) fn give_back(&self, seat: &mut Place<M>) -> Place<M>
        requires table { seat.old.table_id ≡ self.now.table }
        requires book { IsHoldingOne seat.old.me }
        ensures table { (seat.new.table_id ≡ self.now.table) × (result.table_id ≡ self.now.table) }
        ensures seat { seat.new.me ≡ (releasing seat.old.me.0, []) }
        ensures pass { result.me ≡ (returning seat.old.me.0, []) }
    {
        self.words.shared.split_seat::<Return>(seat)
    }
}
