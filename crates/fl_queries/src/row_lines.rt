// The rows of a selection as lines.
ghost use Rattle.std.specs.Prelude.{◌≡◌, ◌≤◌, true, length, map};
ghost use Rattle.fl_queries.specs.Rising.{IsRow, RiseTo};
ghost use Rattle.fl_queries.specs.Rows.{row_reply};

use crate::reply_lines::ReplyLines;
use crate::rows::{RowForm, show_row};
use fl_base::{Sink, SinkFailed};
use fl_flash::Flash;
use fl_ops::Select;
use fl_page::{ReadFault, RowHere, Rows};
use fl_script::RowLine;

impl<F: Flash, R: Rows<F>> ReplyLines<F> for Select<R> {
    ghost names = { λ rows. ⟦<Select<R> as Rows<F>>⟧.names rows };

    ghost ready = { λ rows. ⟦<Select<R> as Rows<F>>⟧.ready rows };

    ghost fits = { λ rows form. (form.columns ≡ length (⟦<Select<R> as RowHere>⟧.schema rows).columns) × (form.columns ≤ 8) };

    ghost told = { λ rows. ⟦<Select<R> as Rows<F>>⟧.told rows };

    ghost here = { λ rows. ⟦<Select<R> as RowHere>⟧.here rows ≡ true };

    ghost present = { λ rows form. row_reply form.blobs (⟦<Select<R> as RowHere>⟧.present rows) };

    ghost made = { λ form first rows. RiseTo IsRow (⟦<Select<R> as RowHere>⟧.above first) (⟦<Select<R> as RowHere>⟧.above rows) };

    ghost made_none = { λ form rows number later. later };

    ghost passes = { λ rows. ⟦<Select<R> as Rows<F>>⟧.passes rows };

    ghost sound = { λ rows. ⟦<Select<R> as Rows<F>>⟧.sound rows };

    ghost lines = { λ rows form contents. map (row_reply form.blobs) (⟦<Select<R> as Rows<F>>⟧.left rows contents) };

    ghost most = { λ rows. ⟦<Select<R> as Rows<F>>⟧.most rows };

    ghost least = { λ rows. ⟦<Select<R> as Rows<F>>⟧.least rows };

    fn next_line(&mut self, flash: &mut F) -> Result<bool, ReadFault> {
        self.step(flash)
    }

    fn show_line<K: Sink>(
        &self,
        form: RowForm,
        line: &mut RowLine,
        out: &mut K,
    ) -> Result<(), SinkFailed> {
        show_row(&self.row(), form, line, out)
    }
}
