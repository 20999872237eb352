// How much a table holds.
ghost use Rattle.std.specs.Prelude.{◌≡◌, false};

use crate::table::Table;

/// All records, those of them that are pending, the kept data pages, and the void ones among these.
#[derive(Clone, Copy, Debug, PartialEq, Eq)]
pub struct TableCounts {
    pub rows: u64,
    pub pending: u32,
    pub pages: u32,
    pub voids: u32,
}

/// What a mount found: the records, the kept data pages, and the void ones among these.
#[derive(Clone, Copy, Debug, PartialEq, Eq)]
pub struct Mounted {
    pub rows: u64,
    pub pages: u32,
    pub voids: u32,
}

impl<const KNOTS: usize, const SLOTS: usize> Table<KNOTS, SLOTS> {
    ghost use Rattle.std.specs.Prelude.{ℕ};
    ghost use Rattle.fl_flash.specs.Flash.{FlashState};
    ghost use Rattle.fl_model.specs.Record.{Plan};
    ghost use Rattle.fl_model.specs.Table as model;
    ghost use Rattle.fl_table.specs.Look.{counts_in, counts_of, lost_counts};
    ghost use Rattle.fl_table.specs.Memory.{is_running};
    ghost use Rattle.fl_table.specs.Standing.{Stands};

    /// How much it holds. Of a table that isn't running no page is counted: after a fault of the flash its rows are those that
    /// were pending, which are lost.
    pub fn counts(&self) -> TableCounts
        ensures exact { result ≡ counts_in self.now }
        ensures stopped { is_running self.now ≡ false → result ≡ lost_counts self.now }
        ensures stands { (f : FlashState) → (first : ℕ) → (plan : Plan) → (table : model.Table) → Stands self.now f first plan table → result ≡ counts_of table }
    {
        let oldest = self.oldest();
        let next = self.next_number();
        let pending = self.pending_rows();
        let mut counts = TableCounts {
            rows: u64::from(pending),
            pending,
            pages: next - oldest,
            voids: 0,
        };
        for number in oldest..next {
            let rows = self.rows_of(number);
            counts.rows += u64::from(rows);
            if rows == 0 {
                counts.voids += 1;
            }
        }
        counts
    }
}
