// The records of a table that are asked for, below the line of their names.
ghost use Rattle.std.specs.Prelude.{◌≡◌, ◌≤◌, ℕ, true, IsTrue, IfErr};
ghost use Rattle.fl_base.specs.Causes.{Rose};
ghost use Rattle.fl_model.specs.Record.{Plan};
ghost use Rattle.fl_model.specs.Table as model;
ghost use Rattle.fl_frame.specs.Contents.{OnlyReads, contents_of};
ghost use Rattle.fl_table.specs.Memory.{is_running, LiesOn};
ghost use Rattle.fl_table.specs.Standing.{Stands};
ghost use Rattle.fl_export.specs.Rooms.{HasRooms};
ghost use Rattle.fl_export.specs.Text.{table_text};
ghost use Rattle.fl_export.specs.Writing.{IfBadPage, IfSink, IfUnread, IsBadIn, Writes};

use crate::fault::ExportFault;
use crate::rooms::Rooms;
use crate::rows::write_rows;
use fl_base::{KeyRange, Sink};
use fl_csv::header_line;
use fl_flash::Flash;
use fl_store::{Cursor, Table};
use std::alloc::Global;

/// Writes the text of the table's records whose keys are in the range.
pub(crate) fn write_table<F: Flash, K: Sink>(
    alloc: Global,
    table: &Table,
    range: KeyRange,
    flash: &mut F,
    rooms: &mut Rooms,
    out: &mut K,
) -> Result<(), ExportFault>
    requires running { is_running table.now ≡ true }
    requires lies { LiesOn table.now (F.state flash.old) }
    requires rooms { HasRooms rooms.old (F.state flash.old).geometry.page }
    ensures counts { OnlyReads (F.state flash.old) (F.state flash.new) }
    ensures later { K.faults out.old ≤ K.faults out.new }
    ensures sink { IfErr result (IfSink (Rose (K.faults out.old) (K.faults out.new))) }
    ensures unread { IfErr result (IfUnread (F.state flash.old) (F.state flash.new)) }
    ensures bad { IfErr result (IfBadPage (IsBadIn table.now (contents_of (F.state flash.old)))) }
    ensures writes { (first : ℕ) (plan : Plan) (t : model.Table) → IsTrue (F.state flash.old).media.tells → Stands table.now (F.state flash.old) first plan t → Writes (table_text plan t range) (K.written out.old) (K.written out.new) result }
{
    header_line(table.columns(), table.has_blobs(), out)?;
    let mut cursor = Cursor::begin(table, range, None, &mut rooms.rows, &mut rooms.index);
    let written = write_rows(alloc, table, &mut cursor, flash, &mut rooms.blob, out);
    cursor.park();
    written
}
