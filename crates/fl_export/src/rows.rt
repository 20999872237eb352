// The rows that a cursor gives, as lines.
ghost use Rattle.std.specs.Prelude.{◌≡◌, ◌≤◌, ℕ, true, List, length, map, IsTrue, IfErr};
ghost use Rattle.std.specs.List.{flat_map};
ghost use Rattle.fl_base.specs.Causes.{Rose};
ghost use Rattle.fl_csv.specs.Text.{entry_text};
ghost use Rattle.fl_cursor.specs.Cursor.{table_of, left_of, IsReady, IsTold};
ghost use Rattle.fl_cursor.specs.Going.{Keeps};
ghost use Rattle.fl_model.specs.Record.{Plan};
ghost use Rattle.fl_model.specs.Row.{stored_row};
ghost use Rattle.fl_model.specs.Table as model;
ghost use Rattle.fl_model.specs.Table.{Entry};
ghost use Rattle.fl_frame.specs.Contents.{contents_of, OnlyReads};
ghost use Rattle.fl_table.specs.Memory.{is_running, LiesOn};
ghost use Rattle.fl_table.specs.Standing.{Stands};
ghost use Rattle.fl_export.specs.Text.{said_of, AreAmong};
ghost use Rattle.fl_export.specs.Writing.{IfBadPage, IfSink, IfUnread, IsBadIn, Writes};

use crate::fault::ExportFault;
use crate::record::write_row;
use crate::rooms::BlobRoom;
use fl_base::Sink;
use fl_flash::Flash;
use fl_page::RowHere;
use fl_store::{Cursor, Table};
use std::alloc::Global;

/// Writes the lines of the rows that a cursor over the table has left.
pub(crate) fn write_rows<F: Flash, K: Sink>(
    alloc: Global,
    table: &Table,
    cursor: &mut Cursor<'_, '_, '_>,
    flash: &mut F,
    room: &mut BlobRoom,
    out: &mut K,
) -> Result<(), ExportFault>
    requires running { is_running table.now ≡ true }
    requires lies { LiesOn table.now (F.state flash.old) }
    requires room { length room.old.page.bytes ≡ (F.state flash.old).geometry.page }
    requires same { table_of cursor.old ≡ table.now }
    requires ready { IsReady cursor.old (contents_of (F.state flash.old)) }
    ensures counts { OnlyReads (F.state flash.old) (F.state flash.new) }
    ensures keeps { Keeps cursor.old cursor.new }
    ensures room { length room.new.page.bytes ≡ length room.old.page.bytes }
    ensures later { K.faults out.old ≤ K.faults out.new }
    ensures sink { IfErr result (IfSink (Rose (K.faults out.old) (K.faults out.new))) }
    ensures unread { IfErr result (IfUnread (F.state flash.old) (F.state flash.new)) }
    ensures bad { IfErr result (IfBadPage (IsBadIn table.now (contents_of (F.state flash.old)))) }
    ensures writes { (first : ℕ) (plan : Plan) (t : model.Table) (entries : List Entry) → IsTrue (F.state flash.old).media.tells → Stands table.now (F.state flash.old) first plan t
        → IsTold cursor.old (contents_of (F.state flash.old)) → left_of cursor.old (contents_of (F.state flash.old)) ≡ map stored_row entries → AreAmong t.entries entries
        → Writes (flat_map entry_text (map (said_of plan t) entries)) (K.written out.old) (K.written out.new) result }
{
    'rows: while cursor.advance(flash)? {
        write_row(alloc, table, &cursor.row(), flash, room, out)?;
    }
    Ok(())
}
