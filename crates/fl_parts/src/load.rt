// What a mount reads: the kept pages, each once.
ghost use Rattle.std.specs.Prelude.{suc, ◌^◌, ◌≡◌, ◌+◌, ◌-◌, ◌*◌, ◌<◌, ◌≤◌, ◌≢◌, ℕ, true, false, Some, None, List, [], ◌∷◌, ◌++◌, length, option_map, unwrap_or, IsTrue, IfSome, IfOk, IfErr, OnOk};
ghost use Rattle.fl_find.specs.Index.{error_in, IndexOf};
ghost use Rattle.fl_find.specs.Pages.{first_key, rows_on};
ghost use Rattle.fl_flash.specs.Flash.{pages, page_at};
ghost use Rattle.fl_model.specs.Record.{layout_len};
ghost use Rattle.fl_model.specs.BlobEnds.{blobs_end};
ghost use Rattle.fl_frame.specs.Reads.{OnlyReads};
ghost use Rattle.fl_ring.specs.Place.{next_of, oldest_of};
ghost use Rattle.fl_ring.specs.Ring.{place, room};
ghost use Rattle.fl_page.specs.View.{page_of, layout_of_page, count_of, rows_of};
ghost use Rattle.fl_schema.specs.Schema.{layout_of};
ghost use Rattle.fl_page.specs.Header.{page_bitmap};
ghost use Rattle.fl_parts.specs.Faults.{IfPage, is_refused};
ghost use Rattle.fl_parts.specs.KeptSteps.{AreFew, CountsOne, FailsReading, HasCome, HasRows, IsNextPage, Keeps, LeavesNoted, MayRead, NotesRest};
ghost use Rattle.fl_parts.specs.Reading.{last_in, keys_fault, IsRead, IsRefused, WaitFor};
ghost use Rattle.fl_parts.specs.ByEntries.{Come, has_rows, is_committed, read_fault, mount_fault};
ghost use Rattle.fl_parts.specs.Coming.{AreRowsOf, AreUnlisted};
ghost use Rattle.fl_parts.specs.Knowing.{KnowsWith, IsWithin, IsUnlisted, is_waiting};
ghost use Rattle.fl_parts.specs.BlobEnds.{least_of};

use crate::MountFault;
use crate::bitmaps::note_entry;
use crate::blob_end::{blobs_end, least_of};
use crate::keys::last_key_after;
use crate::known::{Known, PageFacts, count_page, count_void, settle};
use fl_base::{get_u16, get_u32, get_u64};
use fl_find::KeyIndex;
use fl_flash::{Flash, PageBuf};
use fl_index::{BitmapIndex, Full};
use fl_mark::{PageState, state_of};
use fl_page::{BadPage, PageView};
use fl_ring::Ring;
use fl_schema::Schema;

/// How many rows a page has, their bitmap, the first key of them and the last key up to them, and where their blobs end.
#[derive(Clone, Copy)]
pub(crate) struct PageRows {
    rows: u32,
    bitmap: u64,
    first: Option<u64>,
    last: Option<u64>,
    blob_end: u64,
}

impl PageRows {
    /// What a full index entry tells of the page, beside its bitmap.
    fn full(&self) -> Full
        requires few { self.now.rows < 65536 }
        ensures { result ≡ record { first_key = unwrap_or self.now.first 0; count = self.now.rows; blob_end = least_of self.now.blob_end } }
    {
        Full {
            first_key: self.first.unwrap_or(0),
            count: self.rows as u16,
            blob_end: least_of(self.blob_end),
        }
    }

    /// What is counted of the page, whose rows begin with this key.
    fn facts(&self, first: u64) -> PageFacts
        ensures { result ≡ record { rows = self.now.rows; first = first; last = unwrap_or self.now.last first; blob_end = self.now.blob_end } }
    {
        PageFacts {
            rows: self.rows,
            first,
            last: self.last.unwrap_or(first),
            blob_end: self.blob_end,
        }
    }
}

/// The rows of a page, whose keys rise from the last one on.
fn rows_of_view(
    view: PageView<'_, 8>,
    bitmap: u64,
    number: u32,
    last: Option<u64>,
) -> Result<PageRows, MountFault>
    requires { count_of view < 65536 }
    ensures page { IfOk result (λ page. (page.rows ≡ count_of view.entry) × (page.first ≡ first_key (rows_of view.entry)) × (page.bitmap ≡ bitmap) × (page.blob_end ≡ blobs_end 0 (rows_of view.entry))) }
    ensures keys { IfOk result (λ page. (keys_fault number last (rows_of view.entry) ≡ None) × (page.last ≡ last_in last (rows_of view.entry))) }
    ensures fault { IfErr result (λ e. keys_fault number last (rows_of view.entry) ≡ Some e) }
{
    let last = last_key_after(view, number, last)?;
    Ok(PageRows {
        rows: view.rows() as u32,
        bitmap,
        first: Some(view.row(0).key()),
        last,
        blob_end: blobs_end(&view),
    })
}

/// The bitmap in the header of a data page.
fn bitmap_in(page: &[u8]) -> u64
    requires { 24 ≤ length page.now }
    ensures { result ≡ page_bitmap page.now }
{
    get_u64(page, 8)
}

/// The rows of the page with this number, by its bytes.
fn rows_in(
    schema: &Schema<8>,
    bytes: &[u8],
    number: u32,
    last: Option<u64>,
) -> Result<PageRows, MountFault>
    requires least { 24 ≤ length bytes.now }
    requires most { length bytes.now ≤ 4096 }
    requires row { 1 ≤ layout_len (layout_of schema.now) }
    ensures read { IfOk result (λ page. IsRead (layout_of schema.now) number bytes.now last) }
    ensures page { IfOk result (HasRows (layout_of schema.now) bytes.now) }
    ensures last { IfOk result (λ page. page.last ≡ last_in last (rows_on (layout_of schema.now) bytes.now)) }
    ensures fault { IfErr result (λ e. IsRefused (layout_of schema.now) number bytes.now last e) }
{
    let PageState::Committed = state_of(bytes) else {
        return Ok(PageRows {
            rows: 0,
            bitmap: 0,
            first: None,
            last,
            blob_end: 0,
        });
    };
    match PageView::of(bytes, number, schema) {
        Ok(view) => rows_of_view(view, bitmap_in(bytes), number, last),
        Err(bad) => Err(MountFault::BadPage(bad)),
    }
}

/// A page with these bytes comes, and where it is committed it has rows: then the page that waits isn't the newest with rows.
fn make_way<const KNOTS: usize, const SLOTS: usize>(
    bytes: &[u8],
    known: &mut Known,
    counts: &mut [u16],
    index: &mut KeyIndex<KNOTS, SLOTS>,
) -> Result<(), MountFault>
    requires least { 24 ≤ length bytes.now }
    requires some { 1 ≤ length counts.old }
    requires few { known.old.rows + 65536 < 2 ^ 64 }
    ensures size { length counts.new ≡ length counts.old }
    ensures error { error_in index.new ≡ error_in index.old }
    ensures none { OnOk result (is_committed bytes.now ≡ true → known.new.newest ≡ None) }
    ensures rows { known.new.rows ≤ known.old.rows + 65535 }
    ensures voids { known.new.voids ≡ known.old.voids }
    ensures within { (oldest n : ℕ) → IsWithin oldest n known.old → IsWithin oldest n known.new }
    ensures waits { OnOk result (is_waiting known.new.newest ≤ is_waiting known.old.newest) }
    ensures only { IfErr result (λ e. is_refused e ≡ true) }
    ensures knows { (error : ℕ) (t : Come) (k n : ℕ) → KnowsWith error t k n known.old counts.old index.old → n < t.pages → n ≤ length counts.old → has_rows t (t.oldest + n) ≡ is_committed bytes.now →
        OnOk result (KnowsWith error t k n known.new counts.new index.new) × IfErr result (λ e. mount_fault t ≡ Some e) }
{
    let PageState::Committed = state_of(bytes) else {
        return Ok(());
    };
    settle(known, counts, index)
}

/// A data page comes that no index page lists, with these bytes.
fn see_page<const KNOTS: usize, const SLOTS: usize>(
    schema: &Schema<8>,
    bytes: &[u8],
    number: u32,
    known: &mut Known,
    counts: &mut [u16],
    index: &mut KeyIndex<KNOTS, SLOTS>,
) -> Result<PageRows, MountFault>
    requires least { 24 ≤ length bytes.now }
    requires most { length bytes.now ≤ 4096 }
    requires row { 1 ≤ layout_len (layout_of schema.now) }
    requires some { 1 ≤ length counts.old }
    requires few { AreFew known.old }
    ensures size { length counts.new ≡ length counts.old }
    ensures error { error_in index.new ≡ error_in index.old }
    ensures counted { OnOk result (CountsOne known.old known.new) }
    ensures page { IfOk result (HasRows (layout_of schema.now) bytes.now) }
    ensures knows { (error : ℕ) (t : Come) (k n : ℕ) → KnowsWith error t k n known.old counts.old index.old → IsNextPage t k n number counts.old → IsUnlisted t (layout_of schema.now) number bytes.now →
        OnOk result (KnowsWith error t k (suc n) known.new counts.new index.new) × IfErr result (λ e. mount_fault t ≡ Some e) }
    ensures only { IfErr result (λ e. is_refused e ≡ true) }
{
    make_way(bytes, known, counts, index)?;
    let page = rows_in(schema, bytes, number, known.last)?;
    match page.first {
        Some(first) => count_page(known, counts, index, number, page.facts(first)),
        None => count_void(known, counts, number, 0),
    }
    Ok(page)
}

/// Reads a data page that no index page lists. The buffer holds no page afterwards.
pub(crate) fn read_page<F: Flash, const KNOTS: usize, const SLOTS: usize>(
    schema: &Schema<8>,
    flash: &mut F,
    at: u32,
    number: u32,
    known: &mut Known,
    counts: &mut [u16],
    index: &mut KeyIndex<KNOTS, SLOTS>,
    buf: &mut PageBuf,
) -> Result<PageRows, MountFault>
    requires row { 1 ≤ layout_len (layout_of schema.now) }
    requires exists { at < pages (F.state flash.old) }
    requires room { length buf.old.bytes ≡ (F.state flash.old).geometry.page }
    requires some { 1 ≤ length counts.old }
    requires few { AreFew known.old }
    ensures reads { OnlyReads (F.state flash.old) 1 (F.state flash.new) }
    ensures keeps { Keeps counts.old index.old buf.old counts.new index.new buf.new }
    ensures counted { OnOk result (CountsOne known.old known.new) }
    ensures page { IfOk result (HasRows (layout_of schema.now) buf.new.bytes) }
    ensures bytes { OnOk result (IsTrue (F.state flash.old).media.tells → buf.new.bytes ≡ page_at (F.state flash.old) at) }
    ensures knows { IsTrue (F.state flash.old).media.tells → (error : ℕ) (t : Come) (k n : ℕ) → KnowsWith error t k n known.old counts.old index.old → IsNextPage t k n number counts.old →
        IsUnlisted t (layout_of schema.now) number (page_at (F.state flash.old) at) →
        OnOk result (KnowsWith error t k (suc n) known.new counts.new index.new) × IfErr result (IfPage (λ e. mount_fault t ≡ Some e)) }
    ensures fails { IfErr result (λ e. FailsReading (F.state flash.old) e (F.state flash.new)) }
{
    flash.read(at, buf)?;
    let page = see_page(schema, buf.bytes(), number, known, counts, index);
    buf.forget();
    page
}

/// Reads the kept data pages from one number on, which no index page lists, and notes the entries that wait, from that of the
/// page on that is to wait first. `counts` has the number of rows of each page, by its place in the ring.
///
/// # Errors
///
/// `Flash` where a read fails, and else the first fault of the pages that came: `BadPage` or `BadKeys`.
pub(crate) fn read_pages<F: Flash, const KNOTS: usize, const SLOTS: usize>(
    schema: &Schema<8>,
    ring: &Ring,
    from: u32,
    known: &mut Known,
    counts: &mut [u16],
    index: &mut KeyIndex<KNOTS, SLOTS>,
    bitmaps: &mut Option<BitmapIndex>,
    flash: &mut F,
    buf: &mut PageBuf,
) -> Result<(), MountFault>
    requires may { MayRead (layout_of schema.now) ring.now (F.state flash.old) counts.old buf.old }
    requires come { HasCome ring.now from known.old }
    requires bitmaps { WaitFor bitmaps.old from (next_of ring.now) }
    ensures knows { IsTrue (F.state flash.old).media.tells → next_of ring.now - oldest_of ring.now ≤ length counts.old → (error : ℕ) (t : Come) → AreRowsOf t (layout_of schema.now) ring.now (F.state flash.old) → AreUnlisted t from →
        KnowsWith error t t.index_pages (from - t.oldest) known.old counts.old index.old →
        OnOk result (KnowsWith error t t.index_pages t.pages known.new counts.new index.new) × IfErr result (IfPage (λ e. mount_fault t ≡ Some e)) }
    ensures noted { OnOk result (NotesRest (layout_of schema.now) ring.now bitmaps.old (F.state flash.old) known.old bitmaps.new known.new) }
    ensures leaves { LeavesNoted bitmaps.old (F.state flash.old) (next_of ring.now - from) bitmaps.new (F.state flash.new) }
    ensures keeps { Keeps counts.old index.old buf.old counts.new index.new buf.new }
    ensures fails { IfErr result (λ e. FailsReading (F.state flash.old) e (F.state flash.new)) }
{
    for number in from..ring.next_number() {
        let at = ring.place_of(number);
        let page = read_page(schema, flash, at, number, known, counts, index, buf)?;
        note_entry(bitmaps, number, page.bitmap, page.full());
    }
    Ok(())
}

/// The rows of a page of which an index entry tells rows, by its bytes: it has to be committed.
fn told_rows(
    schema: &Schema<8>,
    bytes: &[u8],
    number: u32,
    last: Option<u64>,
) -> Result<PageRows, MountFault>
    requires least { 24 ≤ length bytes.now }
    requires most { length bytes.now ≤ 4096 }
    requires row { 1 ≤ layout_len (layout_of schema.now) }
    ensures fine { OnOk result (read_fault (layout_of schema.now) number bytes.now true last ≡ None) }
    ensures page { IfOk result (HasRows (layout_of schema.now) bytes.now) }
    ensures last { IfOk result (λ page. page.last ≡ last_in last (rows_on (layout_of schema.now) bytes.now)) }
    ensures only { IfErr result (λ e. is_refused e ≡ true) }
    ensures fault { IfErr result (λ e. read_fault (layout_of schema.now) number bytes.now true last ≡ Some e) }
{
    let PageState::Committed = state_of(bytes) else {
        return Err(MountFault::BadPage(BadPage {
            wanted: number,
            found: get_u32(bytes, 0),
            count: u32::from(get_u16(bytes, 4)),
        }));
    };
    rows_in(schema, bytes, number, last)
}

/// All kept data pages came. The page that waits, where one does, is the newest with rows: it is read. Then the bad index page
/// behind it is the first fault, where there is one. `counts` has the number of rows of each page, by its place in the ring.
///
/// # Errors
///
/// `Flash` where the read fails, and else the first fault of the kept pages: `BadPage` or `BadKeys`.
pub(crate) fn read_newest<F: Flash, const KNOTS: usize, const SLOTS: usize>(
    schema: &Schema<8>,
    ring: &Ring,
    known: &mut Known,
    counts: &mut [u16],
    index: &mut KeyIndex<KNOTS, SLOTS>,
    flash: &mut F,
    buf: &mut PageBuf,
) -> Result<(), MountFault>
    requires may { MayRead (layout_of schema.now) ring.now (F.state flash.old) counts.old buf.old }
    requires rows { known.old.rows + 65536 < 2 ^ 64 }
    ensures knows { IsTrue (F.state flash.old).media.tells → next_of ring.now - oldest_of ring.now ≤ length counts.old → (error : ℕ) (t : Come) → AreRowsOf t (layout_of schema.now) ring.now (F.state flash.old) → KnowsWith error t t.index_pages t.pages known.old counts.old index.old →
        OnOk result (KnowsWith error t t.index_pages t.pages known.new counts.new index.new) × IfErr result (IfPage (λ e. mount_fault t ≡ Some e)) }
    ensures counted { OnOk result (known.new.newest ≡ None) }
    ensures reads { OnlyReads (F.state flash.old) (is_waiting known.old.newest) (F.state flash.new) }
    ensures keeps { Keeps counts.old index.old buf.old counts.new index.new buf.new }
    ensures fails { IfErr result (λ e. FailsReading (F.state flash.old) e (F.state flash.new)) }
{
    let Some(waiting) = known.newest else {
        return Ok(());
    };
    flash.read(ring.place_of(waiting.number), buf)?;
    let read = told_rows(schema, buf.bytes(), waiting.number, known.last);
    buf.forget();
    let page = read?;
    if let Some(bad) = known.fault {
        return Err(MountFault::BadPage(bad));
    }
    known.newest = None;
    if let Some(first) = page.first {
        count_page(known, counts, index, waiting.number, page.facts(first));
    }
    Ok(())
}
