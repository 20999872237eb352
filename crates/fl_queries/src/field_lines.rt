// The fields of a projection as lines.
ghost use Rattle.std.specs.Prelude.{◌≡◌, ◌≤◌, true, length, map, refl};
ghost use Rattle.std.specs.List.{AllByRecursion};
ghost use Rattle.fl_model.specs.Operators.{project};
ghost use Rattle.fl_words.specs.Reply as words;
ghost use Rattle.fl_ops.specs.Columns.{records_of};
ghost use Rattle.fl_queries.specs.ListSays.{IsFields};
ghost use Rattle.fl_ops.specs.Project.{input_of, columns_of, fields_of};

use crate::reply_lines::ReplyLines;
use crate::rows::RowForm;
use arrayvec::ArrayVec;
use fl_base::{Sink, SinkFailed};
use fl_flash::Flash;
use fl_ops::Project;
use fl_page::{ReadFault, RowHere, Rows};
use fl_script::{Reply, RowLine, write_reply};

/// The fields of the present row.
fn fields_of<R: RowHere>(rows: &Project<'_, R>, fields: usize) -> ArrayVec<i128, 8>
    requires here { R.here (input_of rows.now) ≡ true }
    requires fields { fields ≡ length (columns_of rows.now) }
    requires few { fields ≤ 8 }
    ensures { result.items ≡ fields_of (columns_of rows.now) (R.present (input_of rows.now)) }
{
    let mut values = ArrayVec::new();
    for i in 0..fields {
        values.push(rows.value(i));
    }
    values
}

impl<F: Flash, R: Rows<F>> ReplyLines<F> for Project<'_, R> {
    ghost names = { λ rows. R.names (input_of rows) };

    ghost ready = { λ rows. R.ready (input_of rows) };

    ghost fits = { λ rows form. (form.columns ≡ length (columns_of rows)) × (form.columns ≤ 8) };

    ghost told = { λ rows. R.told (input_of rows) };

    ghost here = { λ rows. R.here (input_of rows) ≡ true };

    ghost present = { λ rows form. words.Fields (fields_of (columns_of rows) (R.present (input_of rows))) };

    ghost made = { λ form first rows written. (columns_of rows ≡ columns_of first) × AllByRecursion (IsFields (length (columns_of first))) written };

    ghost made_none = { λ form rows. (refl, tt) };

    ghost passes = { λ rows. R.passes (input_of rows) };

    ghost sound = { λ rows. R.sound (input_of rows) };

    ghost lines = { λ rows form contents. map words.Fields (project (columns_of rows) (records_of (R.left (input_of rows) contents))) };

    ghost most = { λ rows. R.most (input_of rows) };

    ghost least = { λ rows. R.least (input_of rows) };

    fn next_line(&mut self, flash: &mut F) -> Result<bool, ReadFault> {
        self.step(flash)
    }

    fn show_line<K: Sink>(
        &self,
        form: RowForm,
        _line: &mut RowLine,
        out: &mut K,
    ) -> Result<(), SinkFailed> {
        let fields = fields_of(self, form.columns);
        write_reply(&Reply::Fields { fields }, out)
    }
}
