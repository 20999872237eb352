// An index in memory: its ring, and the entries that wait for their page.
ghost use Rattle.std.specs.Prelude.{◌≡◌, ◌+◌, ◌-◌, ◌*◌, ◌/◌, ◌^◌, ◌<◌, ◌≤◌, false, length, drop, replicate, vec_len, IsTrue, IfOk};
ghost use Rattle.std.specs.Option.{ForSome};
ghost use Rattle.fl_bitmap.specs.Widths.{is_bits};
ghost use Rattle.fl_flash.specs.Places.{IsGeometry};
ghost use Rattle.fl_ring.specs.Mounting.{shape_at};
ghost use Rattle.fl_ring.specs.Place.{shape_of};
ghost use Rattle.fl_index.specs.Page.{entry_bytes};

use crate::page::{EntryForm, entry_len};
use fl_base::{Geometry, NoMemory, RingPlace};
use fl_ring::Ring;
use std::alloc::Global;

/// The entries of the sealed data pages of a table: their value bitmaps, alone or with what full entries tell besides. A
/// full list of them becomes a page of a ring of index pages.
/// It is mounted before its first use; each call that takes a flash is given the one on which it was mounted.
#[derive(Drop)]
pub struct BitmapIndex {
    pub(crate) geometry: Geometry,
    /// The blocks of the index ring.
    pub(crate) place: RingPlace,
    /// Of a bitmap.
    pub(crate) bits: u32,
    /// Whether an entry tells more than a bitmap.
    pub(crate) full: bool,
    /// The index ring, where the index is mounted and no seal failed since.
    pub(crate) ring: Option<Ring>,
    /// The first data page that each index page lists, by its place in the ring; none for a void page.
    pub(crate) firsts: Vec<Option<u32>>,
    /// The body of the next index page, where the waiting entries stand.
    pub(crate) body: Vec<u8>,
    /// The data page of the first waiting entry, and how many wait.
    pub(crate) first: u32,
    pub(crate) waiting: u32,
    ghost served: { IsGeometry geometry },
    ghost some_blocks: { 3 ≤ place.blocks },
    ghost few_blocks: { place.blocks ≤ 16384 },
    ghost some_bits: { IsTrue (is_bits bits) },
    ghost remembered: { vec_len firsts ≡ place.blocks * geometry.block },
    ghost page: { length body.items + 8 ≡ geometry.page },
    ghost blank_rest: { drop (16 + (geometry.page - 24) / entry_bytes bits full * entry_bytes bits full) body.items ≡ replicate (length body.items - (16 + (geometry.page - 24) / entry_bytes bits full * entry_bytes bits full)) 255 },
    ghost few: { waiting ≤ (geometry.page - 24) / entry_bytes bits full },
    ghost left: { first + waiting < 2 ^ 32 },
    ghost lies: { ForSome ring (λ r. shape_of r ≡ shape_at place geometry) },
}

impl BitmapIndex {
    ghost use Rattle.std.specs.Prelude.{ℕ};
    ghost use Rattle.fl_flash.specs.Flash.{FlashState, pages};
    ghost use Rattle.fl_model.specs.Record.{Plan, entries_per_page};
    ghost use Rattle.fl_model.specs.Table as model;
    ghost use Rattle.fl_index.specs.Memory.{is_running, first_waiting, waiting_in, next_in, oldest_in, per_page, form_in, IsPlanned, LiesOn};
    ghost use Rattle.fl_index.specs.Standing.{StandsForRing, Stands};

    /// The index of these blocks, with bitmaps of so many bits, in full entries or alone. It isn't mounted.
    pub fn plan(
        alloc: Global,
        geometry: Geometry,
        place: RingPlace,
        bits: u32,
        full: bool,
    ) -> Result<BitmapIndex, NoMemory>
        requires geometry { IsGeometry geometry }
        requires blocks { 3 ≤ place.blocks }
        requires few { place.blocks ≤ 16384 }
        requires bits { IsTrue (is_bits bits) }
        ensures planned { IfOk result (λ index. (plan : Plan) → plan.geometry ≡ geometry → plan.index_blocks ≡ place.blocks → plan.bits ≡ bits → plan.full_index ≡ full → IsPlanned index place.first_block plan) }
        ensures entries { IfOk result (λ index. per_page index ≡ (geometry.page - 24) / entry_bytes bits full) }
        ensures lies { IfOk result (λ index. (f : FlashState) → f.geometry ≡ geometry → place.first_block + place.blocks ≤ f.blocks → pages f < 2 ^ 32 → LiesOn index f) }
        ensures fresh { IfOk result (λ index. (is_running index ≡ false) × (waiting_in index ≡ 0)) }
    {
        let pages = place.blocks as usize * geometry.block as usize;
        Ok(BitmapIndex {
            geometry,
            place,
            bits,
            full,
            ring: None,
            firsts: vec![in alloc; None; pages]?,
            body: vec![in alloc; 0xff; geometry.page as usize - 8]?,
            first: 0,
            waiting: 0,
        })
    }

    /// How many entries wait for their page.
    pub fn waiting(&self) -> u32
        ensures exact { result ≡ waiting_in self.now }
        ensures stands { (f : FlashState) → (first : ℕ) → (plan : Plan) → (table : model.Table) → Stands self.now f first plan table → result ≡ length table.waiting }
    {
        self.waiting
    }

    /// How many index pages are kept, the void ones among them. An index that isn't mounted keeps none.
    pub fn pages(&self) -> u32
        ensures exact { result ≡ next_in self.now - oldest_in self.now }
        ensures stands { (f : FlashState) → (first : ℕ) → (plan : Plan) → (table : model.Table) → (s : StandsForRing self.now f first plan table) → result ≡ length s.ring.counts }
    {
        match &self.ring {
            Some(ring) => ring.next_number() - ring.oldest(),
            None => 0,
        }
    }

    /// The number of the next index page. An index that isn't mounted answers 0.
    pub fn next_number(&self) -> u32
        ensures exact { result ≡ next_in self.now }
        ensures stands { (f : FlashState) → (first : ℕ) → (plan : Plan) → (table : model.Table) → (s : StandsForRing self.now f first plan table) → result ≡ s.ring.next }
    {
        match &self.ring {
            Some(ring) => ring.next_number(),
            None => 0,
        }
    }

    /// The data page whose entry waits next.
    pub fn next_page(&self) -> u32
        ensures exact { result ≡ first_waiting self.now + waiting_in self.now }
        ensures stands { (f : FlashState) → (first : ℕ) → (plan : Plan) → (table : model.Table) → Stands self.now f first plan table → result ≡ table.rows.next }
    {
        self.first + self.waiting
    }

    /// The form of an entry.
    pub(crate) fn form(&self) -> EntryForm
        ensures exact { result ≡ form_in self.now }
        ensures some { 1 ≤ result.width }
        ensures few { result.width ≤ 8 }
    {
        EntryForm {
            width: self.bits as usize / 8,
            full: self.full,
        }
    }

    /// Whether an entry tells more than a bitmap.
    pub fn is_full(&self) -> bool
        ensures { result ≡ (form_in self.now).full }
    {
        self.full
    }

    /// How many entries an index page holds.
    pub fn capacity(&self) -> u32
        ensures exact { result ≡ per_page self.now }
        ensures planned { (first : ℕ) → (plan : Plan) → IsPlanned self.now first plan → result ≡ entries_per_page plan }
    {
        (self.geometry.page - 24) / entry_len(self.form()) as u32
    }
}
