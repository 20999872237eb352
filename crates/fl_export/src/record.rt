// A record as a line.
ghost use Rattle.std.specs.Prelude.{◌≡◌, ◌≤◌, ℕ, true, Some, length, slice_get, IsTrue, IfErr, IfSome};
ghost use Rattle.fl_base.specs.Causes.{Rose};
ghost use Rattle.fl_csv.specs.Text.{entry_text};
ghost use Rattle.fl_csv.specs.Views.{blob_view};
ghost use Rattle.fl_model.specs.Query.{blob_of};
ghost use Rattle.fl_model.specs.Record.{Plan};
ghost use Rattle.fl_model.specs.Row.{stored_row};
ghost use Rattle.fl_model.specs.Table as model;
ghost use Rattle.fl_model.specs.Table.{Entry};
ghost use Rattle.fl_frame.specs.Contents.{OnlyReads};
ghost use Rattle.fl_schema.specs.Schema.{layout_of_row, row_of};
ghost use Rattle.fl_table.specs.BlobAt.{has_blobs};
ghost use Rattle.fl_table.specs.Look.{layout_in};
ghost use Rattle.fl_table.specs.Memory.{is_running, LiesOn};
ghost use Rattle.fl_table.specs.Standing.{Stands};
ghost use Rattle.fl_export.specs.Records.{told_of_found, FindsBlob};
ghost use Rattle.fl_export.specs.Text.{said_of};
ghost use Rattle.fl_export.specs.Writing.{IfBadPage, IfSink, IfUnread, Writes};

use crate::blob::read_blob;
use crate::fault::ExportFault;
use crate::rooms::BlobRoom;
use fl_base::{BlobRef, Sink};
use fl_csv::{CsvBlob, write_record};
use fl_flash::Flash;
use fl_ops::values_of;
use fl_schema::RowRef;
use fl_store::Table;
use std::alloc::Global;

/// What is told of the blob that a row names, whose bytes stand in the room where they aren't gone.
#[derive(Clone, Copy)]
enum BlobFound {
    /// The table keeps no blobs.
    Absent,
    /// The row has none.
    Nothing,
    /// Its bytes are those in the room.
    Whole,
    /// Its bytes are gone.
    Gone,
}

/// Reads the blob that a row names, if it names one.
fn find_blob<F: Flash>(
    table: &Table,
    at: Option<BlobRef>,
    flash: &mut F,
    room: &mut BlobRoom,
) -> Result<BlobFound, ExportFault>
    requires running { is_running table.now ≡ true }
    requires lies { LiesOn table.now (F.state flash.old) }
    requires room { length room.old.page.bytes ≡ (F.state flash.old).geometry.page }
    requires blobs { IfSome at (λ named. has_blobs table.now ≡ true) }
    ensures counts { OnlyReads (F.state flash.old) (F.state flash.new) }
    ensures room { length room.new.page.bytes ≡ length room.old.page.bytes }
    ensures sinkless { IfErr result (IfSink ⊥) }
    ensures unread { IfErr result (IfUnread (F.state flash.old) (F.state flash.new)) }
    ensures bad { IfErr result (IfBadPage (λ bad. has_blobs table.now ≡ true)) }
    ensures finds { (first : ℕ) (plan : Plan) (t : model.Table) (i : ℕ) (entry : Entry) → IsTrue (F.state flash.old).media.tells → Stands table.now (F.state flash.old) first plan t
        → slice_get t.entries i ≡ Some entry → at ≡ (stored_row entry).blob → FindsBlob (has_blobs table.now) (blob_of t entry) room.new.bytes.items result }
{
    let Some(at) = at else {
        if table.has_blobs() {
            return Ok(BlobFound::Nothing);
        }
        return Ok(BlobFound::Absent);
    };
    if read_blob(table, at, flash, room)? {
        return Ok(BlobFound::Whole);
    }
    Ok(BlobFound::Gone)
}

/// What the line of a row tells of its blob.
fn blob_told<'a>(found: BlobFound, bytes: &'a [u8]) -> CsvBlob<'a>
    ensures { blob_view result ≡ told_of_found found bytes.now }
{
    match found {
        BlobFound::Absent => CsvBlob::Absent,
        BlobFound::Nothing => CsvBlob::Nothing,
        BlobFound::Whole => CsvBlob::Bytes(bytes),
        BlobFound::Gone => CsvBlob::Gone,
    }
}

/// Writes the line of a row. Its blob is read whole before.
pub(crate) fn write_row<F: Flash, K: Sink>(
    alloc: Global,
    table: &Table,
    row: &RowRef<'_>,
    flash: &mut F,
    room: &mut BlobRoom,
    out: &mut K,
) -> Result<(), ExportFault>
    requires running { is_running table.now ≡ true }
    requires lies { LiesOn table.now (F.state flash.old) }
    requires room { length room.old.page.bytes ≡ (F.state flash.old).geometry.page }
    requires layout { layout_of_row row.now ≡ layout_in table.now }
    ensures counts { OnlyReads (F.state flash.old) (F.state flash.new) }
    ensures room { length room.new.page.bytes ≡ length room.old.page.bytes }
    ensures later { K.faults out.old ≤ K.faults out.new }
    ensures sink { IfErr result (IfSink (Rose (K.faults out.old) (K.faults out.new))) }
    ensures unread { IfErr result (IfUnread (F.state flash.old) (F.state flash.new)) }
    ensures bad { IfErr result (IfBadPage (λ bad. has_blobs table.now ≡ true)) }
    ensures writes { (first : ℕ) (plan : Plan) (t : model.Table) (i : ℕ) (entry : Entry) → IsTrue (F.state flash.old).media.tells → Stands table.now (F.state flash.old) first plan t
        → slice_get t.entries i ≡ Some entry → row_of row.now ≡ stored_row entry
        → Writes (entry_text (said_of plan t entry)) (K.written out.old) (K.written out.new) result }
{
    let values = values_of(row, table.columns());
    let found = find_blob(table, row.blob(), flash, room)?;
    let blob = blob_told(found, &room.bytes);
    write_record(alloc, row.key(), values.as_slice(), blob, out)?;
    Ok(())
}
