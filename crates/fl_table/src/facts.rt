// What a table tells of itself without a read of the flash.
ghost use Rattle.std.specs.Prelude.{◌≡◌, ◌<◌, ◌≤◌, ◌-◌, length, Some};

use crate::table::Table;
use fl_schema::{RowRef, Schema};

impl<const KNOTS: usize, const SLOTS: usize> Table<KNOTS, SLOTS> {
    ghost use Rattle.std.specs.Prelude.{ℕ, option_map, slice_get, map};
    ghost use Rattle.fl_flash.specs.Flash.{FlashState};
    ghost use Rattle.fl_model.specs.Record.{Plan, row_layout};
    ghost use Rattle.fl_model.specs.Ring as rings;
    ghost use Rattle.fl_model.specs.Row.{stored_row};
    ghost use Rattle.fl_model.specs.Table as model;
    ghost use Rattle.fl_model.specs.Table.{last_entry, pending_entries};
    ghost use Rattle.fl_schema.specs.Schema.{layout_of, layout_of_row, row_of};
    ghost use Rattle.fl_table.specs.Look.{layout_in, last_key_in, oldest_in, rows_noted, buffered_rows};
    ghost use Rattle.fl_table.specs.Memory.{next_in, pending_in, IsPlanned};
    ghost use Rattle.fl_table.specs.Standing.{Stands};

    /// The form of its rows.
    pub fn schema(&self) -> &Schema<8>
        ensures exact { layout_of result.now ≡ layout_in self.now }
        ensures planned { (first : ℕ) → (plan : Plan) → IsPlanned self.now first plan → layout_of result.now ≡ row_layout plan }
    {
        &self.schema
    }

    /// How many columns its rows have.
    pub fn columns(&self) -> usize
        ensures exact { result ≡ length (layout_in self.now).columns }
        ensures some { 1 ≤ result }
        ensures few { result ≤ 8 }
    {
        self.schema.columns()
    }

    /// The key of its last record, where it has one.
    pub fn last_key(&self) -> Option<u64>
        ensures exact { result ≡ last_key_in self.now }
        ensures stands { (f : FlashState) → (first : ℕ) → (plan : Plan) → (table : model.Table) → Stands self.now f first plan table →
            result ≡ option_map (λ entry. entry.kept.key) (last_entry table) }
    {
        self.last_key
    }

    /// The number of the oldest kept page, or of the next page where none is kept. A table that isn't running answers 0.
    pub fn oldest(&self) -> u32
        ensures exact { result ≡ oldest_in self.now }
        ensures stands { (f : FlashState) → (first : ℕ) → (plan : Plan) → (table : model.Table) → Stands self.now f first plan table → result ≡ rings.oldest table.rows }
    {
        match &self.ring {
            Some(ring) => ring.oldest(),
            None => 0,
        }
    }

    /// The number of the next page. A table that isn't running answers 0.
    pub fn next_number(&self) -> u32
        ensures exact { result ≡ next_in self.now }
        ensures ordered { oldest_in self.now ≤ result }
        ensures stands { (f : FlashState) → (first : ℕ) → (plan : Plan) → (table : model.Table) → Stands self.now f first plan table → result ≡ table.rows.next }
    {
        match &self.ring {
            Some(ring) => ring.next_number(),
            None => 0,
        }
    }

    /// How many rows the kept page with this number has: none where it is void.
    pub fn rows_of(&self, number: u32) -> u32
        ensures exact { result ≡ rows_noted self.now number }
        ensures few { result < 65536 }
        ensures stands { (f : FlashState) → (first : ℕ) → (plan : Plan) → (table : model.Table) → Stands self.now f first plan table →
            rings.oldest table.rows ≤ number → number < table.rows.next → slice_get table.rows.counts (number - rings.oldest table.rows) ≡ Some result }
    {
        let at = number as usize % self.counts.len();
        u32::from(self.counts[at])
    }

    /// How many rows are pending.
    pub fn pending_rows(&self) -> u32
        ensures exact { result ≡ pending_in self.now }
        ensures stands { (f : FlashState) → (first : ℕ) → (plan : Plan) → (table : model.Table) → Stands self.now f first plan table → result ≡ table.pending }
    {
        self.writer.count()
    }

    /// Pending row i, from 0.
    pub fn pending_row(&self, i: usize) -> RowRef<'_>
        requires within { i < pending_in self.now }
        ensures layout { layout_of_row result ≡ layout_in self.now }
        ensures row { slice_get (buffered_rows self.now) i ≡ Some (row_of result) }
        ensures stands { (f : FlashState) → (first : ℕ) → (plan : Plan) → (table : model.Table) → Stands self.now f first plan table →
            slice_get (map stored_row (pending_entries table)) i ≡ Some (row_of result) }
    {
        self.writer.row(&self.schema, i)
    }
}
