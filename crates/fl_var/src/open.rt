// A blob is opened for reading.
ghost use Rattle.std.specs.Prelude.{◌≡◌, ◌+◌, ◌≤◌, ◌<◌, true, Some, length, IsTrue, IfOk, IfErr, IfSome};
ghost use Rattle.fl_frame.specs.Contents as contents;
ghost use Rattle.fl_frame.specs.Reads.{OnlyReads};

use crate::reader::BlobReader;
use crate::var_data::VarData;
use fl_base::BlobRef;
use fl_flash::{Flash, PageBuf};
use fl_page::{BadPage, ReadFault};

impl VarData {
    ghost use Rattle.std.specs.Prelude.{ℕ, List, [], None, ◌/◌, is_ok, is_some};
    ghost use Rattle.fl_model.specs.Table as model;
    ghost use Rattle.fl_model.specs.Table.{Entry};
    ghost use Rattle.fl_model.specs.Record.{Plan};
    ghost use Rattle.fl_model.specs.Ring.{Ring};
    ghost use Rattle.fl_model.specs.Agrees.{HoldsBlob};
    ghost use Rattle.fl_model.specs.Query.{page_stands};
    ghost use Rattle.fl_var.specs.Blobs.{IsGone, IsBadFirst};
    ghost use Rattle.fl_var.specs.Content.{HasContent};
    ghost use Rattle.fl_var.specs.Memory.{is_mounted, LiesOn, next_in, page_len, room_in, present, image_in, page_in};
    ghost use Rattle.fl_var.specs.Reading.{data_of, buffer_of, chunk_of, count_left, pages_left, Opens, Finds, IfUnread, IfBad, IsOfPage};
    ghost use Rattle.fl_var.specs.Standing.{Stands};
    ghost use Rattle.fl_page.specs.Header.{page_count};

    /// How many bytes of content the first page of a blob has, or none where the blob is gone.
    fn find_first<F: Flash>(
        &self,
        flash: &mut F,
        at: BlobRef,
        buf: &mut PageBuf,
    ) -> Result<Option<usize>, ReadFault>
        requires mounted { is_mounted self.now ≡ true }
        requires lies { LiesOn self.now (F.state flash.old) }
        requires room { length buf.old.bytes ≡ page_len self.now }
        requires some { 1 ≤ at.length }
        ensures reads { OnlyReads (F.state flash.old) 1 (F.state flash.new) }
        ensures counts { contents.OnlyReads (F.state flash.old) (F.state flash.new) }
        ensures pending { next_in self.now ≤ at.page → (F.state flash.new ≡ F.state flash.old) × IfErr result IsOfPage }
        ensures lies { LiesOn self.now (F.state flash.new) }
        ensures room { length buf.new.bytes ≡ length buf.old.bytes }
        ensures gone { IsTrue (F.state flash.old).media.tells → IfOk result (λ used. used ≡ None → IsGone self.now (F.state flash.old) at) }
        ensures stands { IsTrue (F.state flash.old).media.tells → IfOk result (λ used. IfSome used (λ n. (IsGone self.now (F.state flash.old) at → ⊥) × (n ≡ page_count (image_in self.now (F.state flash.old) at.page)) × HasContent at.page (image_in self.now (F.state flash.old) at.page))) }
        ensures holds { IsTrue (F.state flash.old).media.tells → at.page < next_in self.now → IfOk result (λ used. IfSome used (λ n. buf.new.bytes ≡ page_in self.now (F.state flash.old) at.page)) }
        ensures within { IfOk result (λ used. IfSome used (λ n. (at.page ≤ next_in self.now) × (at.offset < n) × (n ≤ length (present self.now at.page buf.new.bytes)) × (n ≤ room_in self.now))) }
        ensures fails { IfErr result (λ e. IfUnread (F.state flash.old) e (F.state flash.new)) }
        ensures bad { IsTrue (F.state flash.old).media.tells → IfErr result (IfBad (λ bad. (IsGone self.now (F.state flash.old) at → ⊥) × IsBadFirst self.now (F.state flash.old) at bad)) }
    {
        if at.page < self.oldest() {
            return Ok(None);
        }
        if self.next_number() < at.page {
            return Err(ReadFault::BadPage(self.end_fault()));
        }
        let Some(used) = self.find_content(flash, at.page, buf)? else {
            return Ok(None);
        };
        if used <= at.offset as usize {
            return Err(ReadFault::BadPage(BadPage {
                wanted: at.page,
                found: at.page,
                count: used as u32,
            }));
        }
        Ok(Some(used))
    }

    /// Opens a blob: none exactly where it is gone. Its bytes are in the buffer or on pages that are kept, the first of
    /// which is committed. One page is read at most, and none where the blob is empty or begins in the bytes that wait.
    pub fn open_blob<'s, 'b, F: Flash>(
        &'s self,
        flash: &mut F,
        at: BlobRef,
        buf: &'b mut PageBuf,
    ) -> Result<Option<BlobReader<'s, 'b>>, ReadFault>
        requires mounted { is_mounted self.now ≡ true }
        requires lies { LiesOn self.now (F.state flash.old) }
        requires room { length buf.now.bytes ≡ page_len self.now }
        ensures reads { OnlyReads (F.state flash.old) 1 (F.state flash.new) }
        ensures counts { contents.OnlyReads (F.state flash.old) (F.state flash.new) }
        ensures empty { at.length ≡ 0 → (is_ok result ≡ true) × IfOk result (λ reader. is_some reader ≡ true) × (F.state flash.new ≡ F.state flash.old) }
        ensures pending { next_in self.now ≤ at.page → (F.state flash.new ≡ F.state flash.old) × IfErr result IsOfPage }
        ensures lies { LiesOn self.now (F.state flash.new) }
        ensures data { IfOk result (λ reader. IfSome reader (λ r. (data_of r ≡ self.now) × (count_left r ≡ at.length))) }
        ensures buffer { IfOk result (λ reader. IfSome reader (λ r. buffer_of r ≡ buf.entry.ghost_name)) }
        ensures none { IfOk result (λ reader. IfSome reader (λ r. chunk_of r ≡ [])) }
        ensures few { IfOk result (λ reader. IfSome reader (λ r. pages_left r ≤ at.length / room_in self.now + 1)) }
        ensures opens { IsTrue (F.state flash.old).media.tells → Opens self.now (F.state flash.old) at result }
        ensures finds { (plan : Plan) (table : model.Table) (entry : Entry) (bytes : List ℕ) → IsTrue (F.state flash.old).media.tells → Stands self.now (F.state flash.old) plan table
            → entry.kept.blob ≡ Some bytes → at ≡ record { page = entry.page; offset = entry.offset; length = length bytes }
            → ((ring : Ring) → table.var ≡ Some ring → page_stands ring entry.page ≡ true → 0 < length bytes → HoldsBlob plan table ring entry bytes)
            → Finds table entry bytes (F.state flash.old) result }
        ensures fails { IfErr result (λ e. IfUnread (F.state flash.old) e (F.state flash.new)) }
    {
        let mut reader = self.reader(buf);
        if !reader.open(flash, at)? {
            return Ok(None);
        }
        Ok(Some(reader))
    }

    /// A reader over a buffer, of which no byte is left. It can be turned to a blob.
    pub fn reader<'s, 'b>(&'s self, buf: &'b mut PageBuf) -> BlobReader<'s, 'b>
        requires mounted { is_mounted self.now ≡ true }
        requires room { length buf.now.bytes ≡ page_len self.now }
        ensures data { data_of result ≡ self.now }
        ensures buffer { buffer_of result ≡ buf.entry.ghost_name }
        ensures left { count_left result ≡ 0 }
        ensures none { chunk_of result ≡ [] }
    {
        BlobReader {
            var: self,
            buf,
            page: self.next_number(),
            used: 0,
            begin: 0,
            end: 0,
            left: 0,
        }
    }
}

impl BlobReader<'_, '_> {
    ghost use Rattle.std.specs.Prelude.{ℕ, List, [], ◌/◌, Ok, OnErr, if◌then◌else◌};
    ghost use Rattle.fl_model.specs.Agrees.{HoldsBlob};
    ghost use Rattle.fl_model.specs.Query.{page_stands};
    ghost use Rattle.fl_model.specs.Ring.{Ring};
    ghost use Rattle.fl_model.specs.Record.{Plan};
    ghost use Rattle.fl_model.specs.Table as model;
    ghost use Rattle.fl_model.specs.Table.{Entry};
    ghost use Rattle.fl_var.specs.Memory.{LiesOn, next_in, room_in};
    ghost use Rattle.fl_var.specs.Reading.{data_of, buffer_of, chunk_of, count_left, pages_left, has_here, turned, Opens, Finds, IfUnread, IsOfPage};
    ghost use Rattle.fl_var.specs.Standing.{Stands};

    /// Turns to a blob: true where it stands, and false exactly where it is gone. No byte is left then, nor after a fault.
    /// One page is read at most, and none where the blob is empty, which is never gone, or begins in the bytes that wait.
    pub fn open<F: Flash>(&mut self, flash: &mut F, at: BlobRef) -> Result<bool, ReadFault>
        requires lies { LiesOn (data_of self.old) (F.state flash.old) }
        ensures reads { OnlyReads (F.state flash.old) 1 (F.state flash.new) }
        ensures counts { contents.OnlyReads (F.state flash.old) (F.state flash.new) }
        ensures empty { at.length ≡ 0 → (result ≡ Ok true) × (F.state flash.new ≡ F.state flash.old) }
        ensures pending { next_in (data_of self.old) ≤ at.page → (F.state flash.new ≡ F.state flash.old) × IfErr result IsOfPage }
        ensures lies { LiesOn (data_of self.new) (F.state flash.new) }
        ensures data { data_of self.new ≡ data_of self.old }
        ensures buffer { buffer_of self.new ≡ buffer_of self.old }
        ensures left { IfOk result (λ stands. count_left self.new ≡ (if stands then at.length else 0)) }
        ensures no_more { OnErr result (count_left self.new ≡ 0) }
        ensures here { result ≡ Ok true → 1 ≤ at.length → has_here self.new ≡ true }
        ensures none { chunk_of self.new ≡ [] }
        ensures few { pages_left self.new ≤ at.length / room_in (data_of self.old) + 1 }
        ensures opens { IsTrue (F.state flash.old).media.tells → Opens (data_of self.old) (F.state flash.old) at (turned result self.new) }
        ensures finds { (plan : Plan) (table : model.Table) (entry : Entry) (bytes : List ℕ) → IsTrue (F.state flash.old).media.tells → Stands (data_of self.old) (F.state flash.old) plan table
            → entry.kept.blob ≡ Some bytes → at ≡ record { page = entry.page; offset = entry.offset; length = length bytes }
            → ((ring : Ring) → table.var ≡ Some ring → page_stands ring entry.page ≡ true → 0 < length bytes → HoldsBlob plan table ring entry bytes)
            → Finds table entry bytes (F.state flash.old) (turned result self.new) }
        ensures fails { IfErr result (λ e. IfUnread (F.state flash.old) e (F.state flash.new)) }
    {
        self.begin = self.end;
        self.used = self.end;
        self.left = 0;
        if at.length == 0 {
            return Ok(true);
        }
        match self.var.find_first(flash, at, self.buf) {
            Ok(Some(used)) => {
                let begin = at.offset as usize;
                self.page = at.page;
                self.used = used;
                self.begin = begin;
                self.end = begin;
                self.left = at.length;
                Ok(true)
            }
            Ok(None) => Ok(false),
            Err(fault) => Err(fault),
        }
    }
}
