// The pending rows, looked for by their keys.
ghost use Rattle.std.specs.Prelude.{◌≡◌, ◌<◌, ◌≤◌, ℕ, Some, slice_get, IfSome, MatchOption};

use crate::table::Table;

impl<const KNOTS: usize, const SLOTS: usize> Table<KNOTS, SLOTS> {
    ghost use Rattle.fl_find.specs.Rows.{HasKey, LacksKey, RowsRise};
    ghost use Rattle.fl_flash.specs.Flash.{FlashState};
    ghost use Rattle.fl_model.specs.Record.{Plan};
    ghost use Rattle.fl_model.specs.Row.{Row};
    ghost use Rattle.fl_model.specs.Spline.{is_pending_key};
    ghost use Rattle.fl_model.specs.Table as model;
    ghost use Rattle.fl_table.specs.Finding.{is_pending_in};
    ghost use Rattle.fl_table.specs.Look.{buffered_rows};
    ghost use Rattle.fl_table.specs.Memory.{pending_in};
    ghost use Rattle.fl_table.specs.Standing.{Stands};

    /// Whether a key is at least the first pending one, so that no page is read for it.
    pub(crate) fn is_pending_key(&self, key: u64) -> bool
        ensures exact { result ≡ is_pending_in self.now key }
        ensures stands { (f : FlashState) → (first : ℕ) → (plan : Plan) → (table : model.Table) → Stands self.now f first plan table → result ≡ is_pending_key table key }
    {
        self.pending_rows() > 0 && self.pending_row(0).key() <= key
    }

    /// How many pending rows have a smaller key, where their keys rise.
    fn pending_below(&self, key: u64) -> usize
        ensures within { result ≤ pending_in self.now }
        ensures below { RowsRise (buffered_rows self.now) → (i : ℕ) → (row : Row) → i < result → slice_get (buffered_rows self.now) i ≡ Some row → row.key < key }
        ensures at_least { RowsRise (buffered_rows self.now) → (i : ℕ) → (row : Row) → result ≤ i → slice_get (buffered_rows self.now) i ≡ Some row → key ≤ row.key }
    {
        let mut low = 0;
        let mut high = self.pending_rows() as usize;
        while low < high {
            let middle = low + (high - low) / 2;
            if self.pending_row(middle).key() < key {
                low = middle + 1;
            } else {
                high = middle;
            }
        }
        low
    }

    /// The place of the pending row with the key, and none where no pending row has it.
    pub(crate) fn pending_place(&self, key: u64) -> Option<usize>
        ensures within { IfSome result (λ i. i < pending_in self.now) }
        ensures found { MatchOption result (RowsRise (buffered_rows self.now) → LacksKey (buffered_rows self.now) key) (λ i. HasKey (buffered_rows self.now) key i) }
    {
        let place = self.pending_below(key);
        if place >= self.pending_rows() as usize {
            return None;
        }
        if self.pending_row(place).key() != key {
            return None;
        }
        Some(place)
    }
}
