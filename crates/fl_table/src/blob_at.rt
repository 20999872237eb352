// The blob of a record, opened for reading.
ghost use Rattle.std.specs.Prelude.{◌≡◌, ◌+◌, ◌≤◌, ◌/◌, true, Some, [], length, is_ok, is_some, IsTrue, IfOk, IfSome, IfErr};
ghost use Rattle.fl_frame.specs.Contents as contents;
ghost use Rattle.fl_frame.specs.Reads.{OnlyReads};

use crate::table::Table;
use fl_base::BlobRef;
use fl_flash::{Flash, PageBuf};
use fl_page::ReadFault;
use fl_var::BlobReader;

impl<const KNOTS: usize, const SLOTS: usize> Table<KNOTS, SLOTS> {
    ghost use Rattle.std.specs.Prelude.{ℕ, List, slice_get};
    ghost use Rattle.fl_model.specs.Record.{Plan};
    ghost use Rattle.fl_model.specs.Table as model;
    ghost use Rattle.fl_model.specs.Table.{Entry};
    ghost use Rattle.fl_table.specs.BlobAt.{data_in, has_blobs, blob_page_len, content_in};
    ghost use Rattle.fl_table.specs.Memory.{is_running, LiesOn};
    ghost use Rattle.fl_table.specs.Standing.{Stands};
    ghost use Rattle.fl_var.specs.Memory as memory;
    ghost use Rattle.fl_var.specs.Reading.{data_of, buffer_of, chunk_of, count_left, pages_left, Opens, Finds, IfUnread, IsOfPage};

    /// Whether its records may have blobs.
    pub fn has_blobs(&self) -> bool
        ensures { result ≡ has_blobs self.now }
    {
        self.blobs.is_some()
    }

    /// Opens the blob at the place that a row names: none exactly where it is gone. At most one page is read, and none
    /// where the blob is empty or begins in the bytes that wait; each step of the reader reads one more at most.
    pub fn blob_at<'s, 'b, F: Flash>(
        &'s self,
        flash: &mut F,
        at: BlobRef,
        buf: &'b mut PageBuf,
    ) -> Result<Option<BlobReader<'s, 'b>>, ReadFault>
        requires running { is_running self.now ≡ true }
        requires some { has_blobs self.now ≡ true }
        requires lies { LiesOn self.now (F.state flash.old) }
        requires room { length buf.now.bytes ≡ (F.state flash.old).geometry.page }
        ensures reads { OnlyReads (F.state flash.old) 1 (F.state flash.new) }
        ensures counts { contents.OnlyReads (F.state flash.old) (F.state flash.new) }
        ensures empty { at.length ≡ 0 → (is_ok result ≡ true) × IfOk result (λ reader. is_some reader ≡ true) × (F.state flash.new ≡ F.state flash.old) }
        ensures pending { IfSome (data_in self.now) (λ var. memory.next_in var ≤ at.page → (F.state flash.new ≡ F.state flash.old) × IfErr result IsOfPage) }
        ensures lies { LiesOn self.now (F.state flash.new) }
        ensures var { IfOk result (λ reader. IfSome reader (λ r. (Some (data_of r) ≡ data_in self.now) × (count_left r ≡ at.length))) }
        ensures data { IfOk result (λ reader. IfSome reader (λ r. memory.LiesOn (data_of r) (F.state flash.new))) }
        ensures buffer { IfOk result (λ reader. IfSome reader (λ r. buffer_of r ≡ buf.entry.ghost_name)) }
        ensures none { IfOk result (λ reader. IfSome reader (λ r. chunk_of r ≡ [])) }
        ensures few { IfOk result (λ reader. IfSome reader (λ r. pages_left r ≤ at.length / content_in self.now + 1)) }
        ensures opens { IsTrue (F.state flash.old).media.tells → IfSome (data_in self.now) (λ var. Opens var (F.state flash.old) at result) }
        ensures finds { (first : ℕ) (plan : Plan) (table : model.Table) (i : ℕ) (entry : Entry) (bytes : List ℕ) → IsTrue (F.state flash.old).media.tells → Stands self.now (F.state flash.old) first plan table
            → slice_get table.entries i ≡ Some entry → entry.kept.blob ≡ Some bytes → at ≡ record { page = entry.page; offset = entry.offset; length = length bytes }
            → Finds table entry bytes (F.state flash.old) result }
        ensures fails { IfErr result (λ e. IfUnread (F.state flash.old) e (F.state flash.new)) }
    {
        let Some(var) = &self.blobs else {
            unreachable!()
        };
        var.open_blob(flash, at, buf)
    }

    /// A reader over a buffer, of which no byte is left. It can be turned to the blob at a place that a row names, and holds
    /// the buffer until it is closed.
    pub fn blob_reader<'s, 'b>(&'s self, buf: &'b mut PageBuf) -> BlobReader<'s, 'b>
        requires running { is_running self.now ≡ true }
        requires blobs { has_blobs self.now ≡ true }
        requires room { length buf.now.bytes ≡ blob_page_len self.now }
        ensures var { Some (data_of result) ≡ data_in self.now }
        ensures buffer { buffer_of result ≡ buf.entry.ghost_name }
        ensures left { count_left result ≡ 0 }
        ensures none { chunk_of result ≡ [] }
    {
        let Some(var) = &self.blobs else {
            unreachable!()
        };
        var.reader(buf)
    }
}
