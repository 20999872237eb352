// The bytes of a blob, read whole.
ghost use Rattle.std.specs.Prelude.{◌≡◌, ◌≤◌, ℕ, true, Some, List, [], length, slice_get, IsTrue, IfErr};
ghost use Rattle.fl_flash.specs.Flash.{FlashState};
ghost use Rattle.fl_model.specs.Query.{blob_of};
ghost use Rattle.fl_model.specs.Record.{Plan};
ghost use Rattle.fl_model.specs.Table as model;
ghost use Rattle.fl_model.specs.Table.{Entry};
ghost use Rattle.fl_frame.specs.Contents.{OnlyReads};
ghost use Rattle.fl_table.specs.BlobAt.{has_blobs};
ghost use Rattle.fl_table.specs.Memory.{is_running, LiesOn};
ghost use Rattle.fl_table.specs.Standing.{Stands};
ghost use Rattle.fl_var.specs.Memory as memory;
ghost use Rattle.fl_var.specs.Reading.{data_of, buffer_of, bytes_left, Reads, IsWholeIn};
ghost use Rattle.fl_export.specs.Blobs.{Gathers, FindsBytes, WasOpened};
ghost use Rattle.fl_export.specs.declared.fault.ExportFault.{ExportFault};
ghost use Rattle.fl_export.specs.Writing.{IfSink, IfUnread};

use crate::fault::ExportFault;
use crate::rooms::BlobRoom;
use fl_base::BlobRef;
use fl_flash::Flash;
use fl_page::ReadFault;
use fl_store::Table;
use fl_var::BlobReader;

/// Takes the bytes that a reader has left, chunk by chunk, behind those that are there.
fn take_bytes<F: Flash>(
    reader: &mut BlobReader<'_, '_>,
    flash: &mut F,
    bytes: &mut Vec<u8>,
) -> Result<(), ExportFault>
    requires lies { memory.LiesOn (data_of reader.old) (F.state flash.old) }
    ensures counts { OnlyReads (F.state flash.old) (F.state flash.new) }
    ensures data { data_of reader.new ≡ data_of reader.old }
    ensures buffer { buffer_of reader.new ≡ buffer_of reader.old }
    ensures sinkless { IfErr result (IfSink ⊥) }
    ensures unread { IfErr result (IfUnread (F.state flash.old) (F.state flash.new)) }
    ensures gathers { Reads reader.old (F.state flash.old) → IsWholeIn reader.old (F.state flash.old) → Gathers (bytes_left reader.old (F.state flash.old)) bytes.old.items bytes.new.items result }
{
    'chunks: while reader.step(flash)? {
        bytes.extend_from_slice(reader.chunk())?;
    }
    Ok(())
}

/// Takes the bytes of a blob that was opened, and says whether they stand. They are gone, or a page wasn't read, where they
/// don't.
fn take_opened<F: Flash>(
    reader: &mut BlobReader<'_, '_>,
    stands: Result<bool, ReadFault>,
    flash: &mut F,
    bytes: &mut Vec<u8>,
) -> Result<bool, ExportFault>
    requires lies { memory.LiesOn (data_of reader.old) (F.state flash.old) }
    ensures counts { OnlyReads (F.state flash.old) (F.state flash.new) }
    ensures data { data_of reader.new ≡ data_of reader.old }
    ensures buffer { buffer_of reader.new ≡ buffer_of reader.old }
    ensures sinkless { IfErr result (IfSink ⊥) }
    ensures unread { (f : FlashState) → OnlyReads f (F.state flash.old) → IfErr stands (λ fault. IfUnread f (F.state flash.old) (ExportFault.Read fault)) → IfErr result (IfUnread f (F.state flash.new)) }
    ensures finds { (t : model.Table) (entry : Entry) (blob : List ℕ) (f : FlashState) → bytes.old.items ≡ [] → WasOpened t entry blob f (F.state flash.old) stands reader.old → FindsBytes (blob_of t entry) bytes.new.items result }
{
    if !stands? {
        return Ok(false);
    }
    take_bytes(reader, flash, bytes)?;
    Ok(true)
}

/// Reads the blob that a row names, in place of the one in the room, and says whether it stands. It is gone where it doesn't.
pub(crate) fn read_blob<F: Flash>(
    table: &Table,
    at: BlobRef,
    flash: &mut F,
    room: &mut BlobRoom,
) -> Result<bool, ExportFault>
    requires running { is_running table.now ≡ true }
    requires blobs { has_blobs table.now ≡ true }
    requires lies { LiesOn table.now (F.state flash.old) }
    requires room { length room.old.page.bytes ≡ (F.state flash.old).geometry.page }
    ensures counts { OnlyReads (F.state flash.old) (F.state flash.new) }
    ensures room { length room.new.page.bytes ≡ length room.old.page.bytes }
    ensures sinkless { IfErr result (IfSink ⊥) }
    ensures unread { IfErr result (IfUnread (F.state flash.old) (F.state flash.new)) }
    ensures finds { (first : ℕ) (plan : Plan) (t : model.Table) (i : ℕ) (entry : Entry) (blob : List ℕ) → IsTrue (F.state flash.old).media.tells → Stands table.now (F.state flash.old) first plan t
        → slice_get t.entries i ≡ Some entry → entry.kept.blob ≡ Some blob → at ≡ record { page = entry.page; offset = entry.offset; length = length blob }
        → FindsBytes (blob_of t entry) room.new.bytes.items result }
{
    room.bytes.clear();
    if at.length == 0 {
        return Ok(true);
    }
    let mut reader = table.blob_reader(&mut room.page);
    let stands = reader.open(flash, at);
    let taken = take_opened(&mut reader, stands, flash, &mut room.bytes);
    reader.close();
    taken
}
