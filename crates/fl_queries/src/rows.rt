// A row as a line.
ghost use Rattle.std.specs.Prelude.{◌≡◌, ◌≤◌, length};
ghost use Rattle.fl_base.specs.Causes.{HasCause};
ghost use Rattle.fl_words.specs.Reply.{text};
ghost use Rattle.fl_schema.specs.Schema.{layout_of_row, row_of};
ghost use Rattle.fl_script.specs.ReplyView.{reply_text};
ghost use Rattle.fl_script.specs.Written.{Written};
ghost use Rattle.fl_table.specs.BlobAt.{has_blobs};
ghost use Rattle.fl_table.specs.Look.{layout_in};
ghost use Rattle.fl_queries.specs.Rows.{row_reply};

use crate::blob_note::note_of;
use fl_base::{Sink, SinkFailed};
use fl_ops::values_of;
use fl_schema::RowRef;
use fl_script::{Reply, RowLine, write_all};
use fl_store::Table;

/// What the lines of a table's rows say beside their keys.
#[derive(Clone, Copy)]
pub(crate) struct RowForm {
    /// How many values stand in a line.
    pub(crate) columns: usize,
    /// Whether a note on the row's blob ends it.
    pub(crate) blobs: bool,
}

/// The form of the lines of this table's rows.
pub(crate) fn form_of(table: &Table) -> RowForm
    ensures columns { result.columns ≡ length (layout_in table.now).columns }
    ensures few { result.columns ≤ 8 }
    ensures blobs { result.blobs ≡ has_blobs table.now }
{
    RowForm {
        columns: table.columns(),
        blobs: table.has_blobs(),
    }
}

/// The line of a row.
#[inline(always)]
pub(crate) fn line_of(row: &RowRef<'_>, form: RowForm) -> Reply
    requires columns { form.columns ≡ length (layout_of_row row.now).columns }
    requires few { form.columns ≤ 8 }
    ensures { reply_text result ≡ text (row_reply form.blobs (row_of row.now)) }
{
    Reply::Row {
        key: row.key(),
        values: values_of(row, form.columns),
        blob: note_of(form.blobs, row.blob()),
    }
}

/// Writes the line of a row, for which there is room in `line`.
#[inline(always)]
pub(crate) fn show_row<K: Sink>(
    row: &RowRef<'_>,
    form: RowForm,
    line: &mut RowLine,
    out: &mut K,
) -> Result<(), SinkFailed>
    requires columns { form.columns ≡ length (layout_of_row row.now).columns }
    requires few { form.columns ≤ 8 }
    ensures text { Written (K.written out.old) (K.written out.new) result (text (row_reply form.blobs (row_of row.now))) }
    ensures cause { HasCause (K.faults out.old) (K.faults out.new) result }
{
    let values = values_of(row, form.columns);
    line.show(
        row.key(),
        values.as_slice(),
        note_of(form.blobs, row.blob()),
    );
    write_all(line.bytes(), out)
}
