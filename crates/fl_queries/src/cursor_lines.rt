// The rows of a cursor as lines.
ghost use Rattle.std.specs.Prelude.{◌≡◌, ◌≤◌, [], ◌∷◌, true, length, map, refl};
ghost use Rattle.fl_cursor.specs.Cursor.{table_of, mark_of, is_here, present_of, left_of, rows_name, index_name, IsReady, IsTold, MayBeBad};
ghost use Rattle.fl_cursor.specs.Reads.{most_of, least_of};
ghost use Rattle.fl_cursor.specs.Sound.{IsSoundAhead};
ghost use Rattle.fl_table.specs.Look.{layout_in};
ghost use Rattle.fl_queries.specs.Rows.{row_reply};
ghost use Rattle.fl_queries.specs.RowsGiven.{MovesOver};

use crate::reply_lines::ReplyLines;
use crate::rows::{RowForm, show_row};
use fl_base::{Sink, SinkFailed};
use fl_flash::Flash;
use fl_page::{ReadFault, RowHere};
use fl_script::RowLine;
use fl_store::Cursor;

impl<F: Flash> ReplyLines<F> for Cursor<'_, '_, '_> {
    ghost names = { λ cursor. rows_name cursor ∷ index_name cursor ∷ [] };

    ghost ready = { IsReady };

    ghost fits = { λ cursor form. (form.columns ≡ length (layout_in (table_of cursor)).columns) × (form.columns ≤ 8) };

    ghost told = { IsTold };

    ghost here = { λ cursor. is_here cursor ≡ true };

    ghost present = { λ cursor form. row_reply form.blobs (present_of cursor) };

    ghost made = { λ form first cursor. MovesOver form.blobs (mark_of first) (mark_of cursor) };

    ghost made_none = { λ form cursor. record { are_rows = record { rows = []; lines_are = refl; given = tt }; mark_is = refl } };

    ghost passes = { λ cursor. MayBeBad (table_of cursor) };

    ghost sound = { IsSoundAhead };

    ghost lines = { λ cursor form contents. map (row_reply form.blobs) (left_of cursor contents) };

    ghost most = { most_of };

    ghost least = { least_of };

    fn next_line(&mut self, flash: &mut F) -> Result<bool, ReadFault> {
        self.advance(flash)
    }

    fn show_line<K: Sink>(
        &self,
        form: RowForm,
        line: &mut RowLine,
        out: &mut K,
    ) -> Result<(), SinkFailed> {
        show_row(&self.row(), form, line, out)
    }
}
