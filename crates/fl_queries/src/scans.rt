// The rows of a table that are asked for, as replies.
ghost use Rattle.std.specs.Prelude.{◌≡◌, ℕ, true, length, IsTrue};
ghost use Rattle.fl_base.specs.Causes.{HasCause};
ghost use Rattle.fl_model.specs.Record.{Plan};
ghost use Rattle.fl_model.specs.Table as model;
ghost use Rattle.fl_frame.specs.Contents.{OnlyReads};
ghost use Rattle.fl_table.specs.BlobAt.{has_blobs};
ghost use Rattle.fl_table.specs.Memory.{is_running, LiesOn};
ghost use Rattle.fl_table.specs.Standing.{Stands};
ghost use Rattle.fl_queries.specs.ListSays.{mark_on, EndsScan, ListSays};
ghost use Rattle.fl_queries.specs.Lines.{Scans};
ghost use Rattle.fl_queries.specs.RowsGiven.{AreRows};
ghost use Rattle.fl_queries.specs.Room.{HasRooms};

use crate::buffers::Buffers;
use crate::reply_lines::{end_list, list_lines};
use crate::rows::form_of;
use fl_base::{KeyRange, Sink, SinkFailed, Span};
use fl_flash::Flash;
use fl_store::{Cursor, Table};

/// Writes the replies to a scan: the rows that are asked for and their number, or why a page isn't read.
///
/// # Errors
///
/// The sink failed: a first part of what is told is written.
pub fn list_rows<F: Flash, K: Sink>(
    table: &Table,
    range: KeyRange,
    span: Option<Span>,
    flash: &mut F,
    buf: &mut Buffers,
    out: &mut K,
) -> Result<(), SinkFailed>
    requires running { is_running table.now ≡ true }
    requires lies { LiesOn table.now (F.state flash.old) }
    requires room { HasRooms buf.old (F.state flash.old).geometry.page }
    ensures counts { OnlyReads (F.state flash.old) (F.state flash.new) }
    ensures rows { length buf.new.rows.bytes ≡ length buf.old.rows.bytes }
    ensures index { length buf.new.index.bytes ≡ length buf.old.index.bytes }
    ensures right { (length buf.new.right_rows.bytes ≡ length buf.old.right_rows.bytes) × (length buf.new.right_index.bytes ≡ length buf.old.right_index.bytes) }
    ensures cause { HasCause (K.faults out.old) (K.faults out.new) result }
    ensures lines { ListSays (AreRows (has_blobs table.now) (mark_on table.now range span)) (EndsScan (mark_on table.now range span) table.now (F.state flash.old) (F.state flash.new)) (K.written out.old) (K.written out.new) result }
    ensures scans { (first : ℕ) → (plan : Plan) → (t : model.Table) → IsTrue (F.state flash.old).media.tells → (F.state flash.old).is_on ≡ true → Stands table.now (F.state flash.old) first plan t →
        Scans plan t range span (K.written out.old) (K.written out.new) (F.state flash.old).media.faults (F.state flash.new).media.faults (F.state flash.old).work.reads (F.state flash.new).work.reads result }
{
    let form = form_of(table);
    let mut cursor = Cursor::begin(table, range, span, &mut buf.rows, &mut buf.index);
    let listed = list_lines(&mut cursor, u64::MAX, form, flash, out);
    cursor.park();
    end_list(listed, out)
}
