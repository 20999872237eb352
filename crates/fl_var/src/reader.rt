// A blob, read chunk by chunk.
ghost use Rattle.std.specs.Prelude.{◌≡◌, ◌+◌, ◌≤◌, ◌<◌, true, length};
ghost use Rattle.fl_var.specs.Memory.{is_mounted, room_in, next_in, present};

use crate::page::bad_in;
use crate::var_data::VarData;
use crate::waiting::HEADER;
use fl_flash::{Flash, PageBuf};
use fl_page::ReadFault;

/// The bytes of a blob, which are read page by page. Its chunks are slices of a page or of the buffer.
#[derive(Drop)]
pub struct BlobReader<'s, 'b> {
    pub(crate) var: &'s VarData,
    pub(crate) buf: &'b mut PageBuf,
    /// The present page, and how many bytes of content it has.
    pub(crate) page: u32,
    pub(crate) used: usize,
    /// The chunk, as a part of that content.
    pub(crate) begin: usize,
    pub(crate) end: usize,
    /// How many bytes of the blob come after the chunk.
    pub(crate) left: u32,
    ghost mounted: { is_mounted var.now ≡ true },
    ghost ordered: { begin ≤ end },
    ghost before: { end ≤ used },
    ghost within: { end ≤ length (present var.now page buf.now.bytes) },
    ghost size: { length buf.now.bytes ≡ var.now.geometry.page },
    ghost known: { page ≤ next_in var.now },
    ghost fits: { used ≤ room_in var.now },
    ghost all: { used ≤ length (present var.now page buf.now.bytes) },
}

impl<'s, 'b> BlobReader<'s, 'b> {
    ghost use Rattle.std.specs.Prelude.{nat_lt, false, is_ok, Ok, [], ◌++◌, IsTrue, IfOk, IfErr, OnOk, OnErr};
    ghost use Rattle.fl_flash.specs.Flash.{FlashState};
    ghost use Rattle.fl_frame.specs.Contents as contents;
    ghost use Rattle.fl_frame.specs.Reads.{OnlyReads};
    ghost use Rattle.fl_var.specs.Blobs.{IsBadLater};
    ghost use Rattle.fl_var.specs.Memory.{LiesOn};
    ghost use Rattle.fl_page.specs.declared.fault.BadPage.{BadPage};
    ghost use Rattle.fl_var.specs.Reading.{data_of, buffer_of, held_by, page_of, chunk_of, count_left, pages_left, has_here, bytes_left, Reads, IsWholeIn, IsThereBehind, IsBadAhead, Steps, IfUnread, IfBad, NoneBad};

    /// Turns to the next page, which has to have content, where the present one was given to its end.
    fn turn<F: Flash>(&mut self, flash: &mut F) -> Result<(), ReadFault>
        requires lies { LiesOn (data_of self.old) (F.state flash.old) }
        requires left { 1 ≤ count_left self.old }
        requires empty { self.old.begin ≡ self.old.end }
        ensures reads { OnlyReads (F.state flash.old) 1 (F.state flash.new) }
        ensures counts { contents.OnlyReads (F.state flash.old) (F.state flash.new) }
        ensures data { data_of self.new ≡ data_of self.old }
        ensures buffer { buffer_of self.new ≡ buffer_of self.old }
        ensures lies { LiesOn (data_of self.new) (F.state flash.new) }
        ensures left { count_left self.new ≡ count_left self.old }
        ensures empty { self.new.begin ≡ self.new.end }
        ensures some { OnOk result (self.new.end < self.new.used) }
        ensures held { self.old.end < self.old.used → (is_ok result ≡ true) × (F.state flash.new ≡ F.state flash.old) }
        ensures ready { Reads self.old (F.state flash.old) → Reads self.new (F.state flash.new) }
        ensures bytes { Reads self.old (F.state flash.old) → bytes_left self.new (F.state flash.new) ≡ bytes_left self.old (F.state flash.old) }
        ensures whole { Reads self.old (F.state flash.old) → IsWholeIn self.old (F.state flash.old) → NoneBad result × IsWholeIn self.new (F.state flash.new) }
        ensures few { Reads self.old (F.state flash.old) → IsWholeIn self.old (F.state flash.old) → OnOk result ((F.state flash.new).work.reads + pages_left self.new ≤ (F.state flash.old).work.reads + pages_left self.old) }
        ensures most { Reads self.old (F.state flash.old) → IsWholeIn self.old (F.state flash.old) → (F.state flash.new).work.reads ≤ (F.state flash.old).work.reads + pages_left self.old }
        ensures fails { IfErr result (λ e. IfUnread (F.state flash.old) e (F.state flash.new)) }
        ensures bad { IsTrue (F.state flash.old).media.tells → IfErr result (IfBad (IsBadLater (data_of self.old) (F.state flash.old) (page_of self.old + 1))) }
        ensures sound { Reads self.old (F.state flash.old) → IsThereBehind self.new (F.state flash.new) → IsThereBehind self.old (F.state flash.old) }
        ensures ahead { Reads self.old (F.state flash.old) → (bad : BadPage) → IsBadAhead self.new (F.state flash.new) bad → IsBadAhead self.old (F.state flash.old) bad }
    {
        if self.end < self.used {
            return Ok(());
        }
        if self.page == self.var.next_number() {
            return Err(ReadFault::BadPage(self.var.end_fault()));
        }
        let page = self.page + 1;
        let Some(used) = self.var.find_content(flash, page, self.buf)? else {
            return Err(ReadFault::BadPage(bad_in(self.buf.bytes(), page)));
        };
        self.page = page;
        self.used = used;
        self.begin = 0;
        self.end = 0;
        Ok(())
    }

    /// Takes the bytes of the present page that are the blob's.
    fn take(&mut self)
        requires some { self.old.end < self.old.used }
        requires left { 1 ≤ count_left self.old }
        requires empty { self.old.begin ≡ self.old.end }
        ensures data { data_of self.new ≡ data_of self.old }
        ensures buffer { buffer_of self.new ≡ buffer_of self.old }
        ensures ready { (f : FlashState) → Reads self.old f → Reads self.new f }
        ensures bytes { (f : FlashState) → Reads self.old f → bytes_left self.old f ≡ chunk_of self.new ++ bytes_left self.new f }
        ensures some { 1 ≤ length (chunk_of self.new) }
        ensures chunk { count_left self.old ≡ length (chunk_of self.new) + count_left self.new }
        ensures whole { (f : FlashState) → IsWholeIn self.old f → IsWholeIn self.new f }
        ensures few { pages_left self.new ≤ pages_left self.old }
        ensures sound { (f : FlashState) → Reads self.old f → IsThereBehind self.new f → IsThereBehind self.old f }
        ensures ahead { (f : FlashState) (bad : BadPage) → IsBadAhead self.new f bad → IsBadAhead self.old f bad }
    {
        let here = self.used - self.end;
        let len = here.min(self.left as usize);
        self.end += len;
        self.left -= len as u32;
    }

    /// Takes the next chunk from the front of the bytes left. True where there is one, and false where no byte is left,
    /// for which nothing is read, so that it comes with the power off too. After a fault the bytes left are as they were.
    /// Over any bytes each true leaves fewer bytes, by its chunk, and a page that it turns to is there. So a blob that is read to
    /// its end was all there, whatever steps failed before.
    pub fn step<F: Flash>(&mut self, flash: &mut F) -> Result<bool, ReadFault>
        requires lies { LiesOn (data_of self.old) (F.state flash.old) }
        ensures reads { OnlyReads (F.state flash.old) 1 (F.state flash.new) }
        ensures counts { contents.OnlyReads (F.state flash.old) (F.state flash.new) }
        ensures data { data_of self.new ≡ data_of self.old }
        ensures buffer { buffer_of self.new ≡ buffer_of self.old }
        ensures lies { LiesOn (data_of self.new) (F.state flash.new) }
        ensures ready { Reads self.old (F.state flash.old) → Reads self.new (F.state flash.new) }
        ensures more { IfOk result (λ more. more ≡ nat_lt 0 (count_left self.old)) }
        ensures held { has_here self.old ≡ true → (is_ok result ≡ true) × (F.state flash.new ≡ F.state flash.old) }
        ensures done { count_left self.old ≡ 0 → (result ≡ Ok false) × (F.state flash.new ≡ F.state flash.old) }
        ensures some { IfOk result (λ more. more ≡ true → 1 ≤ length (chunk_of self.new)) }
        ensures chunk { count_left self.old ≡ length (chunk_of self.new) + count_left self.new }
        ensures none { OnErr result (chunk_of self.new ≡ []) }
        ensures steps { Reads self.old (F.state flash.old) → Steps result (bytes_left self.old (F.state flash.old)) (chunk_of self.new) (bytes_left self.new (F.state flash.new)) }
        ensures whole { Reads self.old (F.state flash.old) → IsWholeIn self.old (F.state flash.old) → NoneBad result × IsWholeIn self.new (F.state flash.new) }
        ensures few { Reads self.old (F.state flash.old) → IsWholeIn self.old (F.state flash.old) → OnOk result ((F.state flash.new).work.reads + pages_left self.new ≤ (F.state flash.old).work.reads + pages_left self.old) }
        ensures most { Reads self.old (F.state flash.old) → IsWholeIn self.old (F.state flash.old) → (F.state flash.new).work.reads ≤ (F.state flash.old).work.reads + pages_left self.old }
        ensures fails { IfErr result (λ e. IfUnread (F.state flash.old) e (F.state flash.new)) }
        ensures bad { Reads self.old (F.state flash.old) → IfErr result (IfBad (IsBadLater (data_of self.old) (F.state flash.old) (page_of self.old + 1))) }
        ensures sound { Reads self.old (F.state flash.old) → IsThereBehind self.new (F.state flash.new) → IsThereBehind self.old (F.state flash.old) }
        ensures ahead { Reads self.old (F.state flash.old) → (bad : BadPage) → IsBadAhead self.new (F.state flash.new) bad → IsBadAhead self.old (F.state flash.old) bad }
    {
        self.begin = self.end;
        if self.left == 0 {
            return Ok(false);
        }
        self.turn(flash)?;
        self.take();
        Ok(true)
    }

    /// Gives the buffer back as it is.
    pub fn close(self)
        ensures same { self.exit.1.0.now ≡ held_by self.entry }
    {}

    /// The bytes that the last step gave: none before the first one, and where it answered false or failed.
    pub fn chunk(&self) -> &[u8]
        ensures { result.now ≡ chunk_of self.now }
    {
        if self.page == self.var.next_number() {
            return &self.var.waiting.content()[self.begin..self.end];
        }
        &self.buf.bytes()[HEADER + self.begin..HEADER + self.end]
    }
}
