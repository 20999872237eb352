// Where a cursor begins.
ghost use Rattle.std.specs.Prelude.{◌≡◌, false, true, List, ℕ};
ghost use Rattle.fl_frame.specs.Contents.{Contents};
ghost use Rattle.fl_table.specs.Memory.{is_running};
ghost use Rattle.fl_cursor.specs.Listed.{rows_of};

use crate::Bookmark;
use crate::place::Place;
use fl_table::Table;

impl Bookmark {
    ghost use Rattle.fl_cursor.specs.Asked.{asked_by, lowest_of};
    ghost use Rattle.fl_cursor.specs.Cursor.{rows_behind, IsPlaced, IsStanding, Passes};
    ghost use Rattle.fl_cursor.specs.Going.{is_in_page};
    ghost use Rattle.fl_cursor.specs.Reads.{IsBegun};

    /// The lowest key that may still be given.
    pub(crate) fn lowest(&self) -> u64
        ensures { result ≡ lowest_of (asked_by self.now) }
    {
        match self.after {
            Some(after) => self.range.low.max(after.saturating_add(1)),
            None => self.range.low,
        }
    }

    /// The place from which no row is missed. Where the lowest key is at least the first pending one, no page is read.
    pub(crate) fn first_place<const KNOTS: usize, const SLOTS: usize>(
        &self,
        table: &Table<KNOTS, SLOTS>,
    ) -> Place
        requires { is_running table.now ≡ true }
        ensures placed { (page : List ℕ) → IsPlaced table.now page result }
        ensures outside { is_in_page result ≡ false }
        ensures begun { IsBegun (asked_by self.now) table.now result }
        ensures passes { (contents : Contents) (page : List ℕ) → IsStanding table.now contents →
            Passes (asked_by self.now) (rows_of table.now contents) (rows_behind table.now contents page result) }
    {
        let lowest = self.lowest();
        if !self.is_up_to(lowest) {
            return Place::Ended;
        }
        if table.pending_rows() > 0 && table.pending_row(0).key() <= lowest {
            return Place::Pending { row: 0 };
        }
        Place::Start
    }
}
