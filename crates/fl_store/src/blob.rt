// The blob of a record of a table.
ghost use Rattle.std.specs.Prelude.{◌≡◌, ◌<◌, ℕ, List, true, Some, [], length, slice_get, IsTrue, IfOk, IfErr, IfSome};
ghost use Rattle.fl_model.specs.Record.{Config, Plan};
ghost use Rattle.fl_model.specs.Table as model;
ghost use Rattle.fl_frame.specs.Contents as contents;
ghost use Rattle.fl_frame.specs.Reads.{OnlyReads};
ghost use Rattle.fl_rlc.specs.Table.{table_in};
ghost use Rattle.fl_table.specs.BlobAt.{data_in};
ghost use Rattle.fl_var.specs.Memory.{LiesOn};
ghost use Rattle.fl_var.specs.Reading.{Finds, IfUnread, Opens, Reads, buffer_of, chunk_of, count_left, data_of};
ghost use Rattle.fl_store.specs.declared.tables.Entry.{Entry};

use crate::tables::Tables;
use fl_base::BlobRef;
use fl_flash::{Flash, PageBuf};
use fl_page::ReadFault;
use fl_var::BlobReader;

impl Tables {
    ghost use Rattle.fl_store.specs.Calls.{Located, RunsAt};
    ghost use Rattle.fl_store.specs.InMemory.{has_blobs_at};
    ghost use Rattle.fl_store.specs.Store.{Holds};
    ghost use Rattle.fl_store.specs.Tables.{LieOn};

    /// Opens the blob that a row of the table at a place names: none exactly where it is gone. The reader holds the tables and the
    /// buffer, and each of its steps takes the flash.
    /// # Errors
    /// Why the page on which it begins isn't read.
    pub fn blob<'s, 'b, F: Flash>(
        &'s self,
        at: usize,
        place: BlobRef,
        flash: &mut F,
        buf: &'b mut PageBuf,
    ) -> Result<Option<BlobReader<'s, 'b>>, ReadFault>
        requires at { at < length self.now.entries.items }
        requires running { RunsAt self.now.entries.items at }
        requires blobs { has_blobs_at self.now.entries.items at ≡ true }
        requires lie { LieOn self.now.entries.items (F.state flash.old) }
        requires room { length buf.now.bytes ≡ (F.state flash.old).geometry.page }
        // Over a flash with which the tables are held the reader has the bytes of the record's blob left, where they aren't gone.
        ensures finds { (config : Config) (tables : List model.Table) (plan : Plan) (table : model.Table) (i : ℕ) (item : model.Entry) (bytes : List ℕ) → Holds config self.now.entries.items (F.state flash.old) true tables →
            Located config tables at plan table → slice_get table.entries i ≡ Some item → item.kept.blob ≡ Some bytes → place ≡ record { page = item.page; offset = item.offset; length = length bytes } →
            Finds table item bytes (F.state flash.new) result }
        ensures opens { (entry : Entry) → slice_get self.now.entries.items at ≡ Some entry → IsTrue (F.state flash.old).media.tells → IfSome (data_in (table_in entry.table)) (λ var. Opens var (F.state flash.old) place result) }
        ensures ready { IsTrue (F.state flash.old).media.tells → IfOk result (λ reader. IfSome reader (λ r. Reads r (F.state flash.new))) }
        ensures lies { IfOk result (λ reader. IfSome reader (λ r. LiesOn (data_of r) (F.state flash.new))) }
        ensures left { IfOk result (λ reader. IfSome reader (λ r. count_left r ≡ place.length)) }
        ensures none { IfOk result (λ reader. IfSome reader (λ r. chunk_of r ≡ [])) }
        ensures buffer { IfOk result (λ reader. IfSome reader (λ r. buffer_of r ≡ buf.entry.ghost_name)) }
        ensures fails { IfErr result (λ e. IfUnread (F.state flash.old) e (F.state flash.new)) }
        ensures reads { OnlyReads (F.state flash.old) 1 (F.state flash.new) }
        ensures counts { contents.OnlyReads (F.state flash.old) (F.state flash.new) }
        ensures lie { LieOn self.now.entries.items (F.state flash.new) }
    {
        let table = self.entries[at].table.table();
        table.blob_at(flash, place, buf)
    }
}
