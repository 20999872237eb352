// A row as a line.
ghost use Rattle.std.specs.Prelude.{◌≡◌, ◌≤◌, length, IsTrue, IfOk, IfErr};
ghost use Rattle.fl_base.specs.declared.types.BlobRef.{BlobRef};
ghost use Rattle.fl_csv.specs.Views.{blob_view};
ghost use Rattle.fl_image.specs.Image.{OnlyLooksAt};
ghost use Rattle.fl_schema.specs.Schema.{layout_of, layout_of_row, row_of};
ghost use Rattle.fl_script.specs.Written.{Written};
ghost use Rattle.fl_salvage.specs.Faults.{IsCaused, IsUnread};
ghost use Rattle.fl_salvage.specs.Line.{told_of_found};
ghost use Rattle.fl_salvage.specs.Text.{blob_told, form_of, row_text};

use crate::blob::take_blob;
use crate::fault::SalvageFault;
use crate::rooms::BlobRoom;
use crate::table_pages::TablePages;
use fl_base::{BlobRef, Sink};
use fl_csv::{CsvBlob, write_record};
use fl_flash::Media;
use fl_ops::values_of;
use fl_schema::RowRef;
use std::alloc::Global;

/// What is told of the blob that a row names, whose bytes stand in the room where they are whole.
#[derive(Clone, Copy)]
enum BlobFound {
    /// The table keeps no blobs.
    Absent,
    /// The row has none.
    Nothing,
    /// It has no bytes.
    Empty,
    /// Its bytes are those in the room.
    Whole,
    /// Not all of its bytes are there.
    Gone,
}

/// Takes the bytes of the blob that a row names, if it names one.
fn find_blob<M: Media>(
    table: &TablePages,
    at: Option<BlobRef>,
    media: &mut M,
    room: &mut BlobRoom,
) -> Result<BlobFound, SalvageFault>
    requires room { length room.old.page.items ≡ table.now.rows.size }
    ensures looks { OnlyLooksAt (M.state media.old) (M.state media.new) }
    ensures room { length room.new.page.items ≡ table.now.rows.size }
    ensures found { IfOk result (λ found. IsTrue (M.state media.old).tells → told_of_found found room.new.bytes.items ≡ blob_told (form_of table.now) (M.state media.old).content at) }
    ensures cause { IfErr result (IsUnread (M.state media.old) (M.state media.new)) }
{
    let Some(at) = at else {
        if table.schema.has_blobs() {
            return Ok(BlobFound::Nothing);
        }
        return Ok(BlobFound::Absent);
    };
    let Some(ring) = table.var else {
        return Ok(BlobFound::Gone);
    };
    if at.length == 0 {
        return Ok(BlobFound::Empty);
    }
    if table.blob_limit < at.length {
        return Ok(BlobFound::Gone);
    }
    if take_blob(ring, at, media, room)? {
        return Ok(BlobFound::Whole);
    }
    Ok(BlobFound::Gone)
}

/// What the line of a row tells of its blob.
fn blob_said<'a>(found: BlobFound, bytes: &'a [u8]) -> CsvBlob<'a>
    ensures { blob_view result ≡ told_of_found found bytes.now }
{
    match found {
        BlobFound::Absent => CsvBlob::Absent,
        BlobFound::Nothing => CsvBlob::Nothing,
        BlobFound::Empty => CsvBlob::Empty,
        BlobFound::Whole => CsvBlob::Bytes(bytes),
        BlobFound::Gone => CsvBlob::Gone,
    }
}

/// Writes the line of a row. The bytes of its blob are taken before.
pub(crate) fn write_row<M: Media, K: Sink>(
    alloc: Global,
    table: &TablePages,
    row: &RowRef<'_>,
    media: &mut M,
    room: &mut BlobRoom,
    out: &mut K,
) -> Result<(), SalvageFault>
    requires room { length room.old.page.items ≡ table.now.rows.size }
    requires layout { layout_of_row row.now ≡ layout_of table.now.schema }
    ensures looks { OnlyLooksAt (M.state media.old) (M.state media.new) }
    ensures room { length room.new.page.items ≡ table.now.rows.size }
    ensures later { K.faults out.old ≤ K.faults out.new }
    ensures writes { IsTrue (M.state media.old).tells → Written (K.written out.old) (K.written out.new) result (row_text (form_of table.now) (M.state media.old).content (row_of row.now)) }
    ensures cause { IfErr result (IsCaused (M.state media.old) (M.state media.new) (K.faults out.old) (K.faults out.new)) }
{
    let values = values_of(row, table.schema.columns());
    let found = find_blob(table, row.blob(), media, room)?;
    let blob = blob_said(found, &room.bytes);
    write_record(alloc, row.key(), values.as_slice(), blob, out)?;
    Ok(())
}
