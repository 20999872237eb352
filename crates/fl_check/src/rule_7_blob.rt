// The rule on the references of a table's rows.
ghost use Rattle.std.specs.Prelude.{◌≡◌, ◌<◌, ◌≤◌, ℕ, List, true, false, length, IsTrue, IfOk, IfErr, IfSome, IfNone};
ghost use Rattle.fl_flash.specs.Flash.{page_at};
ghost use Rattle.fl_page.specs.Header.{page_number};
ghost use Rattle.fl_page.specs.Page.{IsGoodPage, rows_in};
ghost use Rattle.fl_page.specs.View.{rows_of};
ghost use Rattle.fl_frame.specs.Reads.{OnlyReads};
ghost use Rattle.fl_frame.specs.Causes.{ReadFails};
ghost use Rattle.fl_ring.specs.Place.{shape_of, LiesOn};
ghost use Rattle.fl_schema.specs.Schema.{layout_of};
ghost use Rattle.fl_rules.specs.Claims.{AllBelow};
ghost use Rattle.fl_rules.specs.Marks.{AreWithin};
ghost use Rattle.fl_rules.specs.Reaches.{AreMeasured};
ghost use Rattle.fl_rules.specs.References.{content_room, Leads, BlobLeads, RowsLead, HasKeptRows, PageLeads, ReferencesBreak};

use fl_base::{BlobRef, get_u32};
use fl_flash::{Flash, FlashFault, PageBuf};
use fl_page::PageView;
use fl_ring::{Ring, is_committed, look};
use fl_rules::{Marks, Numbering};
use fl_schema::Schema;

/// A ring of variable data whose marks and numbers were checked: the bytes of content that a page has room for, and how far
/// the content of each kept page reaches, the newest first.
#[derive(Clone, Copy)]
pub(crate) struct BlobPages<'r> {
    pub(crate) ring: &'r Ring,
    pub(crate) numbering: Numbering,
    pub(crate) content: u32,
    pub(crate) reaches: &'r [u64],
    ghost content_is: { content ≡ content_room (shape_of ring.now) },
    ghost listed: { numbering.marks.kept ≤ length reaches.now },
}

impl BlobPages<'_> {
    /// Whether a reference leads before the next page, and where its first page is there, to a whole blob.
    fn leads(&self, at: BlobRef) -> bool
        requires { 0 < at.length }
        ensures yes { result ≡ true → (page : ℕ → List ℕ) → AreMeasured page (shape_of self.now.ring.now) self.now.numbering.marks.at self.now.numbering.marks.kept self.now.reaches.now
            → Leads page (shape_of self.now.ring.now) self.now.numbering at }
        ensures no { result ≡ false → (page : ℕ → List ℕ) → AreMeasured page (shape_of self.now.ring.now) self.now.numbering.marks.at self.now.numbering.marks.kept self.now.reaches.now
            → Leads page (shape_of self.now.ring.now) self.now.numbering at → ⊥ }
    {
        if self.numbering.next <= at.page {
            return false;
        }
        let back = self.numbering.next - at.page;
        if self.numbering.marks.kept < back {
            return true;
        }
        let reach = self.reaches[back as usize - 1];
        if reach == 0 {
            // The first page was given up.
            return true;
        }
        if self.content <= u32::from(at.offset) {
            return false;
        }
        u64::from(at.offset) + u64::from(at.length) <= reach
    }

    /// Whether the blob of a row stands where its reference says, where it has any byte.
    fn blob_leads(&self, blob: Option<BlobRef>) -> bool
        ensures yes { result ≡ true → (page : ℕ → List ℕ) → AreMeasured page (shape_of self.now.ring.now) self.now.numbering.marks.at self.now.numbering.marks.kept self.now.reaches.now
            → BlobLeads page (shape_of self.now.ring.now) self.now.numbering blob }
        ensures no { result ≡ false → (page : ℕ → List ℕ) → AreMeasured page (shape_of self.now.ring.now) self.now.numbering.marks.at self.now.numbering.marks.kept self.now.reaches.now
            → BlobLeads page (shape_of self.now.ring.now) self.now.numbering blob → ⊥ }
    {
        match blob {
            None => true,
            Some(at) => {
                if at.length == 0 {
                    return true;
                }
                self.leads(at)
            }
        }
    }

    /// Whether the blobs of all rows of a page stand where their references say.
    fn rows_lead<const COLS: usize>(&self, view: &PageView<'_, COLS>) -> bool
        ensures yes { result ≡ true → (page : ℕ → List ℕ) → AreMeasured page (shape_of self.now.ring.now) self.now.numbering.marks.at self.now.numbering.marks.kept self.now.reaches.now
            → RowsLead page (shape_of self.now.ring.now) self.now.numbering (rows_of view.now) }
        ensures no { result ≡ false → (page : ℕ → List ℕ) → AreMeasured page (shape_of self.now.ring.now) self.now.numbering.marks.at self.now.numbering.marks.kept self.now.reaches.now
            → RowsLead page (shape_of self.now.ring.now) self.now.numbering (rows_of view.now) → ⊥ }
    {
        for i in 0..view.rows() {
            if !self.blob_leads(view.row(i).blob()) {
                return false;
            }
        }
        true
    }

    /// Whether those of the rows of a data page do, where the bytes are such a page.
    fn page_leads<const COLS: usize>(&self, schema: &Schema<COLS>, bytes: &[u8]) -> bool
        requires { 24 ≤ length bytes.now }
        ensures yes { result ≡ true → (page : ℕ → List ℕ) → AreMeasured page (shape_of self.now.ring.now) self.now.numbering.marks.at self.now.numbering.marks.kept self.now.reaches.now
            → IsGoodPage (layout_of schema.now) (page_number bytes.now) bytes.now → RowsLead page (shape_of self.now.ring.now) self.now.numbering (rows_in (layout_of schema.now) bytes.now) }
        ensures no { result ≡ false → (page : ℕ → List ℕ) → AreMeasured page (shape_of self.now.ring.now) self.now.numbering.marks.at self.now.numbering.marks.kept self.now.reaches.now
            → RowsLead page (shape_of self.now.ring.now) self.now.numbering (rows_in (layout_of schema.now) bytes.now) → ⊥ }
    {
        match PageView::of(bytes, get_u32(bytes, 0), schema) {
            Err(_) => true,
            Ok(view) => self.rows_lead(&view),
        }
    }
}

/// Looks for the oldest kept data page with a reference that doesn't lead to its blob. Each committed one has to have its
/// rows, and each committed page of variable data some content. Each data page is read once.
pub(crate) fn find_misleading<F: Flash, const COLS: usize>(
    ring: &Ring,
    flash: &mut F,
    m: Marks,
    schema: &Schema<COLS>,
    blobs: &BlobPages<'_>,
    buf: &mut PageBuf,
) -> Result<Option<u32>, FlashFault>
    requires lies { LiesOn ring.now (F.state flash.old) }
    requires room { length buf.old.bytes ≡ (shape_of ring.now).size }
    requires within { AreWithin (shape_of ring.now) m }
    ensures reads { OnlyReads (F.state flash.old) m.kept (F.state flash.new) }
    ensures room { length buf.new.bytes ≡ (shape_of ring.now).size }
    ensures none { IfOk result (λ o. IsTrue (F.state flash.old).media.tells → AllBelow (HasKeptRows (layout_of schema.now) (page_at (F.state flash.old)) (shape_of ring.now) m) m.kept
        → AreMeasured (page_at (F.state flash.old)) (shape_of blobs.now.ring.now) blobs.now.numbering.marks.at blobs.now.numbering.marks.kept blobs.now.reaches.now
        → IfNone o (AllBelow (PageLeads (layout_of schema.now) (page_at (F.state flash.old)) (shape_of ring.now) m (shape_of blobs.now.ring.now) blobs.now.numbering) m.kept)) }
    ensures some { IfOk result (λ o. IsTrue (F.state flash.old).media.tells → AllBelow (HasKeptRows (layout_of schema.now) (page_at (F.state flash.old)) (shape_of ring.now) m) m.kept
        → AreMeasured (page_at (F.state flash.old)) (shape_of blobs.now.ring.now) blobs.now.numbering.marks.at blobs.now.numbering.marks.kept blobs.now.reaches.now
        → IfSome o (ReferencesBreak (layout_of schema.now) (page_at (F.state flash.old)) (shape_of ring.now) m (shape_of blobs.now.ring.now) blobs.now.numbering)) }
    ensures fails { IfErr result (λ e. ReadFails (F.state flash.old) e (F.state flash.new)) }
{
    for i in 0..m.kept {
        let place = ring.page_back(m.at, m.kept - i);
        let state = look(flash, place, buf)?;
        if is_committed(state) {
            if !blobs.page_leads(schema, buf.bytes()) {
                return Ok(Some(place));
            }
        }
    }
    Ok(None)
}
