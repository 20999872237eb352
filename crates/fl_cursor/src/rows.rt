// A cursor as rows.
ghost use Rattle.std.specs.Prelude.{◌≡◌, ◌∷◌, []};

use crate::Cursor;
use crate::place::Here;
use fl_flash::Flash;
use fl_page::{ReadFault, RowHere, Rows};
use fl_schema::RowRef;

impl<const KNOTS: usize, const SLOTS: usize> RowHere for Cursor<'_, '_, '_, KNOTS, SLOTS> {
    ghost use Rattle.fl_table.specs.Look.{layout_in};
    ghost use Rattle.fl_cursor.specs.Asked.{above_of};
    ghost use Rattle.fl_cursor.specs.Cursor.{table_of, asked_of, is_here, present_of};

    ghost here = { is_here };

    ghost present = { present_of };

    ghost schema = { λ cursor. layout_in (table_of cursor) };

    ghost above = { λ cursor. above_of (asked_of cursor) };

    fn row(&self) -> RowRef<'_> {
        match self.here {
            Here::Nowhere => unreachable!(),
            Here::PageRow { number, row } => {
                let table = self.table;
                table.view(self.rows_buf, number).row(row)
            }
            Here::PendingRow { row } => {
                let table = self.table;
                table.pending_row(row)
            }
        }
    }
}

impl<F: Flash, const KNOTS: usize, const SLOTS: usize> Rows<F>
    for Cursor<'_, '_, '_, KNOTS, SLOTS> {
    ghost use Rattle.fl_cursor.specs.Cursor.{table_of, has_ended, left_of, rows_name, index_name, IsReady, IsTold, MayBeBad};
    ghost use Rattle.fl_cursor.specs.Reads.{most_of, least_of};
    ghost use Rattle.fl_cursor.specs.Sound.{IsSoundAhead};
    ghost use Rattle.fl_cursor.specs.Ascending.{left-ascends};

    ghost names = { λ cursor. rows_name cursor ∷ index_name cursor ∷ [] };

    ghost ready = { IsReady };

    ghost told = { IsTold };

    ghost left = { left_of };

    ghost ended = { has_ended };

    ghost passes = { λ cursor. MayBeBad (table_of cursor) };

    ghost sound = { IsSoundAhead };

    ghost most = { most_of };

    ghost least = { least_of };

    ghost ascends = { left-ascends };

    fn step(&mut self, flash: &mut F) -> Result<bool, ReadFault> {
        self.advance(flash)
    }
}
